//! Answers a script of edits and preludes with what was read for each, so that it can be compared with what an edit may read.
ghost use Rattle.std.specs.Prelude.{◌≡◌, ◌-◌, ◌^◌, ◌<◌, IfOk, map, string_bytes};
ghost use Rattle.htmlspec.specs.Limits.{HasLimits};
ghost use Rattle.mdtool.specs.Counts.{Counting, CountsBeside, IsCountLine, count_line};
ghost use Rattle.mdtool.specs.Steps.{failures_after, out_failures_after};
ghost use Rattle.mdtool.specs.Views.{command_view};
ghost use Rattle.mdview.specs.Document.{empty};

use crate::command::Command;
use crate::device::{Feed, Out};
use crate::fault::ToolFault;
use crate::replier::Replier;
use crate::serving::{answer, preview_with};
use htmlspec::Options;
use mdtext::{Count, Entities, Tally};
use mdview::Preview;
use std::alloc::{AllocError, Global};

/// Writes a line for each command of a script: how many lines and how many inline texts were read for it, no more than it may.
/// The script is read, carried out, and ends, as `serve` says.
pub fn serve_counts<R: Feed, W: Out>(
    alloc: Global,
    feed: &mut R,
    out: &mut W,
    entities: Entities,
    options: Options,
    prelude: &[String],
) -> Result<(), ToolFault>
    requires limits { HasLimits options }
    requires feed { R.failures feed.old < 2 ^ 64 - 1 }
    requires out { W.failures out.old < 2 ^ 64 - 1 }
    ensures counts { CountsBeside result (empty entities options) (map string_bytes prelude.now) (R.left feed.old) (R.left feed.new) (W.written out.old) (W.written out.new) }
    // `Read` is answered where the feed failed, and `Write` where the out did.
    ensures feed { R.failures feed.new ≡ failures_after result (R.failures feed.old) }
    ensures out { W.failures out.new ≡ out_failures_after result (W.failures out.old) }
{
    let mut preview = preview_with(alloc, entities, options, prelude)?;
    answer(alloc, &CountLines, feed, out, &mut preview)
}

/// Replies by a line that says what was read for the command.
#[derive(Clone, Copy)]
struct CountLines;

impl Replier for CountLines {
    ghost says = { λ _. IsCountLine };

    fn reply_to(
        &self,
        alloc: Global,
        preview: &mut Preview,
        command: &Command,
    ) -> Result<String, AllocError> {
        let count = counted(alloc, preview, command)?;
        count_line(alloc, &count)
    }
}

/// Carries out one command, and answers what was read for it.
fn counted(alloc: Global, preview: &mut Preview, command: &Command) -> Result<Tally, AllocError>
    ensures { IfOk result (λ count. Counting preview.old (command_view command.now) (⟦<Tally as Count>⟧.lines count) (⟦<Tally as Count>⟧.inlines count) preview.new) }
{
    let mut count = Tally::new();
    match command {
        Command::Html => Ok(count),
        Command::Prelude { lines } => {
            let lines = lines.lent(alloc)?;
            let _answer = preview.set_prelude(&lines, &mut count);
            Ok(count)
        }
        Command::Edit { at, del, add } => {
            let lines = add.lent(alloc)?;
            let _answer = preview.edit(*at, *del, &lines, &mut count);
            Ok(count)
        }
    }
}

fn count_line(alloc: Global, count: &Tally) -> Result<String, AllocError>
    ensures { IfOk result (λ line. string_bytes line ≡ count_line (⟦<Tally as Count>⟧.lines count.now) (⟦<Tally as Count>⟧.inlines count.now)) }
{
    let lines = count.lines();
    let inlines = count.inlines();
    format!(in alloc; "{lines} {inlines}\n")
}
