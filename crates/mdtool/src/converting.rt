//! Turns a whole text into HTML.
ghost use Rattle.std.specs.Prelude.{◌≡◌, ◌-◌, ◌^◌, ◌<◌, ℕ, IfErr, IfOk, List, map, string_bytes};
ghost use Rattle.std.specs.Str.Lossy.{utf8_lossy};
ghost use Rattle.mdtext.specs.Lines.{text_lines};
ghost use Rattle.mdtool.specs.Convert.{Conversion, IsPreludeOf, PreludeRead, TextRead, WholeHtml, with_prelude};
ghost use Rattle.mdtool.specs.ToolRefusals.{IsRefusal, refusal_of};
ghost use Rattle.mdtool.specs.Drained.{TakesSome};
ghost use Rattle.mdtool.specs.Steps.{Steps, failures_after, out_failures_after};
ghost use Rattle.htmlspec.specs.Limits.{HasLimits};

use crate::device::{Feed, Out};
use crate::draining::read_all;
use crate::fault::ToolFault;
use crate::serving::{lent, send};
use htmlspec::Options;
use mdbatch::to_html;
use mdtext::{Entities, Tally};
use mdview::{EditFault, Prelude};
use std::alloc::{AllocError, Global};

/// Writes the HTML of the text that the feed has left, and flushes.
///
/// Bytes that are no UTF-8 are read as U+FFFD, and lines end as CommonMark 2.1 says. Nothing is written before the whole
/// text was read and accepted: nothing at all after `Refused`, `Read` and `NoMemory`, and after `Write` a beginning of the
/// HTML, which is the pieces of the text's view, one after the other. The definitions in the prelude's lines stand below the
/// text's; they are read first, and where they are refused nothing of the feed was read.
pub fn convert<R: Feed, W: Out>(
    alloc: Global,
    feed: &mut R,
    out: &mut W,
    entities: Entities,
    options: Options,
    prelude: &[String],
) -> Result<(), ToolFault>
    requires limits { HasLimits options }
    requires feed { R.failures feed.old < 2 ^ 64 - 1 }
    requires out { W.failures out.old < 2 ^ 64 - 1 }
    ensures converted { Conversion result (record { entities = entities; options = options }) (map string_bytes prelude.now)
        (R.left feed.old) (R.left feed.new) (W.written out.old) (W.written out.new) }
    // `Read` is answered where the feed failed, and `Write` where the out did.
    ensures feed { R.failures feed.new ≡ failures_after result (R.failures feed.old) }
    ensures out { W.failures out.new ≡ out_failures_after result (W.failures out.old) }
{
    let prelude = read_prelude(alloc, prelude, &entities, &options)?;
    convert_beside(alloc, feed, out, &entities, &options, &prelude)
}

/// Writes the HTML of the text that the feed has left and that stands beside this prelude, and flushes.
fn convert_beside<R: Feed, W: Out>(
    alloc: Global,
    feed: &mut R,
    out: &mut W,
    entities: &Entities,
    options: &Options,
    prelude: &Prelude,
) -> Result<(), ToolFault>
    requires limits { HasLimits options.now }
    requires feed { R.failures feed.old < 2 ^ 64 - 1 }
    requires out { W.failures out.old < 2 ^ 64 - 1 }
    ensures converted { (given : List (List ℕ)) → IsPreludeOf (record { entities = entities.now; options = options.now }) given prelude.now
        → Conversion result (record { entities = entities.now; options = options.now }) given (R.left feed.old) (R.left feed.new) (W.written out.old) (W.written out.new) }
    ensures feed { R.failures feed.new ≡ failures_after result (R.failures feed.old) }
    ensures out { W.failures out.new ≡ out_failures_after result (W.failures out.old) }
{
    let text = read_text(alloc, feed)?;
    let html = whole_html(alloc, &text, entities, options, prelude)?;
    if send(out, html.as_bytes()).is_err() {
        return Err(ToolFault::Write);
    }
    Ok(())
}

/// The prelude of these lines.
fn read_prelude(
    alloc: Global,
    lines: &[String],
    entities: &Entities,
    options: &Options,
) -> Result<Prelude, ToolFault>
    requires { HasLimits options.now }
    ensures { PreludeRead result (record { entities = entities.now; options = options.now }) (map string_bytes lines.now) }
{
    let lines = lent(alloc, lines)?;
    match Prelude::read(alloc, &lines, entities, options, &mut Tally::new()) {
        Ok(prelude) => Ok(prelude),
        Err(reason) => Err(refusal(reason)),
    }
}

/// The text of all bytes that the feed has left.
pub fn read_text<R: Feed>(alloc: Global, feed: &mut R) -> Result<String, ToolFault>
    requires { R.failures feed.old < 2 ^ 64 - 1 }
    ensures steps { Steps result
        (λ text. TextRead (R.left feed.old) (string_bytes text) (R.left feed.new))
        (TakesSome (R.left feed.old) (R.left feed.new))
        (TakesSome (R.left feed.old) (R.left feed.new)) }
    ensures failures { R.failures feed.new ≡ failures_after result (R.failures feed.old) }
{
    let bytes = read_all(alloc, feed)?;
    Ok(lossy_text(alloc, bytes)?)
}

/// The bytes as a text, which are not copied where they are one.
fn lossy_text(alloc: Global, bytes: Vec<u8>) -> Result<String, AllocError>
    ensures { IfOk result (λ text. string_bytes text ≡ utf8_lossy bytes.items) }
{
    match String::from_utf8(bytes) {
        Ok(text) => Ok(text),
        Err(fault) => String::from_utf8_lossy(alloc, fault.as_bytes()),
    }
}

/// The HTML of a text. Want of memory is no refusal of it.
fn whole_html(
    alloc: Global,
    text: &str,
    entities: &Entities,
    options: &Options,
    prelude: &Prelude,
) -> Result<String, ToolFault>
    requires { HasLimits options.now }
    ensures html { (given : List (List ℕ)) → IsPreludeOf (record { entities = entities.now; options = options.now }) given prelude.now
        → WholeHtml result (record { entities = entities.now; options = options.now }) (with_prelude given (text_lines text.now)) }
    ensures refusal { IfErr result IsRefusal }
{
    match to_html(alloc, text, entities, options, prelude) {
        Ok(html) => Ok(html),
        Err(fault) => Err(refusal(fault)),
    }
}

/// Want of memory is no refusal.
pub fn refusal(fault: EditFault) -> ToolFault
    ensures { result ≡ refusal_of fault }
{
    match fault {
        EditFault::NoMemory => ToolFault::NoMemory,
        _ => ToolFault::Refused(fault),
    }
}
