//! Answers a script of edits.
ghost use Rattle.std.specs.Prelude.{◌≡◌, ◌+◌, ◌-◌, ◌^◌, ◌<◌, [], IfOk, map, string_bytes};
ghost use Rattle.std.specs.Result.{is_ok};
ghost use Rattle.mdtool.specs.Bytes.{Puts};
ghost use Rattle.mdview.specs.Document.{Document, empty};
ghost use Rattle.mdtool.specs.PreludeSet.{PreludeSet};
ghost use Rattle.mdtool.specs.Replies.{IsReply};
ghost use Rattle.mdtool.specs.ScriptEnds.{Served};
ghost use Rattle.mdtool.specs.Serve.{ServedBeside};
ghost use Rattle.mdtool.specs.Steps.{failures_after, out_failures_after};
ghost use Rattle.htmlspec.specs.Limits.{HasLimits};
ghost use Rattle.mdwords.specs.declared.reply_forms.ReplyForm.TheVariants.{Plain};

use crate::command::Command;
use crate::converting::refusal;
use crate::device::{DeviceFault, Feed, Out, put_all};
use crate::fault::ToolFault;
use crate::replier::Replier;
use crate::replies::{edit_reply, html_reply};
use crate::script::Script;
use htmlspec::Options;
use mdtext::{Entities, Tally};
use mdview::Preview;
use mdwords::ReplyForm;
use std::alloc::{AllocError, Global};
use std::mem::forget;

/// The lines, lent.
pub fn lent<'a>(alloc: Global, lines: &'a [String]) -> Result<Vec<&'a str>, AllocError>
    ensures { IfOk result (λ lent. map (λ line. line.now) lent.items ≡ map string_bytes lines.now) }
{
    let mut lent = Vec::with_capacity(alloc, lines.len())?;
    for line in lines {
        lent.push(line.as_str())?;
    }
    Ok(lent)
}

/// An empty preview with a prelude of these lines.
pub fn preview_with(
    alloc: Global,
    entities: Entities,
    options: Options,
    prelude: &[String],
) -> Result<Preview, ToolFault>
    requires { HasLimits options }
    ensures { PreludeSet (λ (held : Document). held) result (empty entities options) (map string_bytes prelude.now) }
{
    let mut preview = Preview::new(alloc, entities, options);
    let lines = lent(alloc, prelude)?;
    match preview.set_prelude(&lines, &mut Tally::new()) {
        Ok(_) => Ok(preview),
        Err(fault) => Err(refusal(fault)),
    }
}

impl Replier for ReplyForm {
    ghost says = { IsReply };

    fn reply_to(
        &self,
        alloc: Global,
        preview: &mut Preview,
        command: &Command,
    ) -> Result<String, AllocError> {
        let before = preview.len();
        match command {
            Command::Html => html_reply(alloc, preview),
            Command::Prelude { lines } => {
                let lines = lines.lent(alloc)?;
                let answer = preview.set_prelude(&lines, &mut Tally::new());
                edit_reply(alloc, *self, preview, before, &answer)
            }
            Command::Edit { at, del, add } => {
                let lines = add.lent(alloc)?;
                let answer = preview.edit(*at, *del, &lines, &mut Tally::new());
                edit_reply(alloc, *self, preview, before, &answer)
            }
        }
    }
}

/// Writes a reply and flushes.
pub fn send<W: Out>(out: &mut W, reply: &[u8]) -> Result<(), DeviceFault>
    requires { W.failures out.old < 2 ^ 64 - 1 }
    ensures { Puts (W.written out.old) (W.failures out.old) reply.now (is_ok result) (W.written out.new) (W.failures out.new) }
{
    put_all(out, reply)?;
    out.flush()
}

/// Answers the commands of a script as they come, each reply flushed.
///
/// A command is `html`, or `edit AT DEL ADD` or `prelude ADD` and ADD lines after it; lines end at LF. A refused edit or
/// prelude is answered and the script goes on. `BadCommand` and `Truncated` end it after the replies to the commands before,
/// and so does `Read`, where an unfinished last line is none. After `Write` and `NoMemory` a beginning of the replies went out.
///
/// The prelude of these lines is set before anything is read, without a reply. `Refused` says why it is refused; then nothing was
/// read or written.
pub fn serve<R: Feed, W: Out>(
    alloc: Global,
    feed: &mut R,
    out: &mut W,
    entities: Entities,
    options: Options,
    prelude: &[String],
) -> Result<(), ToolFault>
    requires limits { HasLimits options }
    requires feed { R.failures feed.old < 2 ^ 64 - 1 }
    requires out { W.failures out.old < 2 ^ 64 - 1 }
    ensures served { ServedBeside Plain result (empty entities options) (map string_bytes prelude.now) (R.left feed.old) (R.left feed.new) (W.written out.old) (W.written out.new) }
    // `Read` is answered where the feed failed, and `Write` where the out did.
    ensures feed { R.failures feed.new ≡ failures_after result (R.failures feed.old) }
    ensures out { W.failures out.new ≡ out_failures_after result (W.failures out.old) }
{
    let mut preview = preview_with(alloc, entities, options, prelude)?;
    answer(alloc, &ReplyForm::Plain, feed, out, &mut preview)
}

/// Answers a script as `serve` does, by replies of this form, for a program that ends then: the preview's memory goes back with the process, and not bit by bit.
pub fn serve_to_the_end<R: Feed, W: Out>(
    alloc: Global,
    form: ReplyForm,
    feed: &mut R,
    out: &mut W,
    entities: Entities,
    options: Options,
    prelude: &[String],
) -> Result<(), ToolFault>
    requires limits { HasLimits options }
    requires feed { R.failures feed.old < 2 ^ 64 - 1 }
    requires out { W.failures out.old < 2 ^ 64 - 1 }
    ensures served { ServedBeside form result (empty entities options) (map string_bytes prelude.now) (R.left feed.old) (R.left feed.new) (W.written out.old) (W.written out.new) }
    ensures feed { R.failures feed.new ≡ failures_after result (R.failures feed.old) }
    ensures out { W.failures out.new ≡ out_failures_after result (W.failures out.old) }
{
    let mut preview = preview_with(alloc, entities, options, prelude)?;
    let end = answer(alloc, &form, feed, out, &mut preview);
    forget(preview);
    end
}

/// Answers the commands of a script as they come, each reply flushed.
pub fn answer<A: Replier, R: Feed, W: Out>(
    alloc: Global,
    replier: &A,
    feed: &mut R,
    out: &mut W,
    preview: &mut Preview,
) -> Result<(), ToolFault>
    requires feed { R.failures feed.old < 2 ^ 64 - 1 }
    requires out { W.failures out.old < 2 ^ 64 - 1 }
    ensures served { Served (A.says replier.now) result preview.old (R.left feed.old) (R.left feed.new) (W.written out.old) (W.written out.new) }
    ensures feed { R.failures feed.new ≡ failures_after result (R.failures feed.old) }
    ensures out { W.failures out.new ≡ out_failures_after result (W.failures out.old) }
{
    let mut script = Script::new(alloc);
    while let Some(command) = script.next_command(alloc, feed)? {
        let reply = replier.reply_to(alloc, preview, &command)?;
        if send(out, reply.as_str().as_bytes()).is_err() {
            return Err(ToolFault::Write);
        }
    }
    Ok(())
}
