//! What the script's commands are answered.
ghost use Rattle.std.specs.Prelude.{◌≡◌, ◌+◌, ◌++◌, string_bytes, IfOk, OnOk, length};
ghost use Rattle.std.specs.List.{concat};
ghost use Rattle.blockspec.specs.BlockUnits.{begins};
ghost use Rattle.mdsource.specs.Patch.{brought};
ghost use Rattle.mdview.specs.Document.{pieces_of};
ghost use Rattle.mdsource.specs.FaultReasons.{reason_of};
ghost use Rattle.mdview.specs.Outcome.{answer_of};
ghost use Rattle.mdtool.specs.Replies.{html_reply, edit_reply, line_part, moved_by, moved_line, refused_reply, piece_reply, pieces_reply, patch_line, told_line, told_of};

use itoa::Buffer;
use mdview::{EditFault, Patch, Preview};
use mdwords::ReplyForm;
use std::alloc::{AllocError, Global};

/// The reply to `html`: the number of bytes of all pieces, and these.
pub fn html_reply(alloc: Global, preview: &Preview) -> Result<String, AllocError>
    ensures { IfOk result (λ reply. string_bytes reply ≡ html_reply (pieces_of preview.now)) }
{
    let mut reply = String::new(alloc);
    push_pieces(preview, &mut reply)?;
    let head = format!(in alloc; "html {}\n", reply.len())?;
    reply.insert_str(0, head.as_str())?;
    Ok(reply)
}

/// Adds the bytes of all pieces.
fn push_pieces(preview: &Preview, html: &mut String) -> Result<(), AllocError>
    ensures { OnOk result (string_bytes html.new ≡ string_bytes html.old ++ concat (pieces_of preview.now)) }
{
    for piece in preview.pieces() {
        html.push_str(piece)?;
    }
    Ok(())
}

/// The reply to an edit of a text that had so many lines.
pub fn edit_reply(
    alloc: Global,
    form: ReplyForm,
    preview: &Preview,
    before: usize,
    answer: &Result<Patch, EditFault>,
) -> Result<String, AllocError>
    ensures { IfOk result (λ reply. string_bytes reply ≡ edit_reply form (answer_of answer.now) before (told_of preview.now)) }
{
    match answer {
        Ok(patch) => accepted_reply(alloc, form, preview, before, patch),
        Err(fault) => refused_reply(alloc, fault),
    }
}

fn refused_reply(alloc: Global, fault: &EditFault) -> Result<String, AllocError>
    ensures { IfOk result (λ reply. string_bytes reply ≡ refused_reply (reason_of fault.now)) }
{
    let name = fault.name();
    let number = fault.number();
    format!(in alloc; "refused {name} {number}\n")
}

/// The reply to an accepted edit: the patch, and each piece that it brings with its number and its bytes.
fn accepted_reply(
    alloc: Global,
    form: ReplyForm,
    preview: &Preview,
    before: usize,
    patch: &Patch,
) -> Result<String, AllocError>
    ensures { IfOk result (λ reply. string_bytes reply ≡ patch_line patch.now ++ moved_line form (patch.now.first + patch.now.added) before (length preview.now.lines)
        ++ pieces_reply form (begins preview.now.entities preview.now.lines) (brought patch.now 0 (pieces_of preview.now))) }
{
    let mut reply = patch_reply(alloc, patch)?;
    push_moved(form, behind(patch), before, preview.len(), &mut reply)?;
    for (number, html) in patch.pieces(preview)? {
        push_piece(line_of(form, preview, number), number, html, &mut reply)?;
    }
    Ok(reply)
}

fn patch_reply(alloc: Global, patch: &Patch) -> Result<String, AllocError>
    ensures { IfOk result (λ reply. string_bytes reply ≡ patch_line patch.now) }
{
    let first = patch.first;
    let removed = patch.removed;
    let added = patch.added;
    let again = patch.again.len();
    format!(in alloc; "ok {first} {removed} {added} {again}\n")
}

/// The number of the first piece behind those that came.
fn behind(patch: &Patch) -> u128
    ensures { result ≡ patch.now.first + patch.now.added }
{
    patch.first as u128 + patch.added as u128
}

/// Adds how many lines later than before the pieces from a number on begin, where that is told.
fn push_moved(
    form: ReplyForm,
    behind: u128,
    before: usize,
    lines: usize,
    reply: &mut String,
) -> Result<(), AllocError>
    ensures { OnOk result (string_bytes reply.new ≡ string_bytes reply.old ++ moved_line form behind before lines) }
{
    match form {
        ReplyForm::Plain => Ok(()),
        ReplyForm::WithLines => {
            reply.push_str("moved ")?;
            reply.push_str(Buffer::new().format(behind))?;
            reply.push_str(" ")?;
            push_difference(before, lines, reply)?;
            reply.push_str("\n")
        }
    }
}

/// Adds how many more lines there are than before, with a sign where there are fewer.
fn push_difference(before: usize, lines: usize, reply: &mut String) -> Result<(), AllocError>
    ensures { OnOk result (string_bytes reply.new ≡ string_bytes reply.old ++ moved_by before lines) }
{
    if lines < before {
        reply.push_str("-")?;
        reply.push_str(Buffer::new().format(before - lines))
    } else {
        reply.push_str(Buffer::new().format(lines - before))
    }
}

/// The line on which a piece begins, where that is told.
fn line_of(form: ReplyForm, preview: &Preview, number: usize) -> Option<usize>
    ensures { result ≡ told_line form (begins preview.now.entities preview.now.lines) number }
{
    match form {
        ReplyForm::Plain => None,
        ReplyForm::WithLines => preview.first_line(number),
    }
}

fn push_piece(
    line: Option<usize>,
    number: usize,
    text: &str,
    reply: &mut String,
) -> Result<(), AllocError>
    ensures { OnOk result (string_bytes reply.new ≡ string_bytes reply.old ++ piece_reply line number text.now) }
{
    let mut digits = Buffer::new();
    reply.push_str("piece ")?;
    reply.push_str(digits.format(number))?;
    reply.push_str(" ")?;
    reply.push_str(digits.format(text.len()))?;
    push_line(line, reply)?;
    reply.push_str("\n")?;
    reply.push_str(text)
}

/// Adds the line on which a piece begins, where that is told.
fn push_line(line: Option<usize>, reply: &mut String) -> Result<(), AllocError>
    ensures { OnOk result (string_bytes reply.new ≡ string_bytes reply.old ++ line_part line) }
{
    match line {
        None => Ok(()),
        Some(line) => {
            reply.push_str(" ")?;
            reply.push_str(Buffer::new().format(line))
        }
    }
}
