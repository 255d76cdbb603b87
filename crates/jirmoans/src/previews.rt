//! What C calls of a preview.
ghost use Rattle.std.specs.Prelude.{◌≡◌, None};
ghost use Rattle.jirmoans.specs.Answers.{Answers, AnswersOpening, lines_in, units_in};
ghost use Rattle.jirmoans.specs.Sessions.{BeginsAt, Edits, SetsPrelude, ShowsHtml, ShowsPiece};

use crate::faults::{Fault, Refusal, answer};
use crate::handles::Handle;
use crate::session::Session;
use crate::settings::Settings;
use crate::shown::{Changes, Text};
use mdview::EditFault;
use std::alloc::Global;

/// Opens a preview of the empty text. Refused, in this order: `AlreadyOpen`, what the settings and the entities are refused for, want of memory; then it is as it was.
#[unsafe(no_mangle)]
pub extern "C" fn jirmoans_open(
    alloc: Global,
    handle: &mut Handle,
    settings: &Settings,
    entities: &[u8],
) -> Fault
    ensures { AnswersOpening settings.now entities.now handle.old.slot.held handle.new.slot.held result }
{
    if let Some(session) = handle.take(alloc) {
        handle.put(session);
        return Refusal::AlreadyOpen.fault();
    }
    let session = match Session::open(alloc, settings, entities) {
        Ok(session) => session,
        Err(refusal) => return refusal.fault(),
    };
    match Box::new(alloc, session) {
        Ok(session) => {
            handle.put(session);
            Fault::none()
        }
        Err(_) => Refusal::Edit(EditFault::NoMemory).fault(),
    }
}

/// Lets a preview go with all its memory. Where it is not open nothing is done.
#[unsafe(no_mangle)]
pub extern "C" fn jirmoans_close(alloc: Global, handle: &mut Handle)
    ensures { handle.new.slot.held ≡ None }
{
    drop(handle.take(alloc));
}

/// Replaces `del` lines from line `at` by the lines of a text. Refused: `NotOpen`, else bytes that are no UTF-8, else as `Preview::edit` refuses it; then the preview
/// and `changes` are as they were.
#[unsafe(no_mangle)]
pub extern "C" fn jirmoans_edit(
    alloc: Global,
    handle: &mut Handle,
    at: usize,
    del: usize,
    text: &[u8],
    changes: &mut Changes,
) -> Fault
    ensures { Answers (Edits at del text.now) handle.old.slot.held handle.new.slot.held result changes.old changes.new }
{
    let Some(mut session) = handle.take(alloc) else {
        return Refusal::NotOpen.fault();
    };
    let ended = session.edit(at, del, text);
    handle.put(session);
    answer(ended, changes)
}

/// Replaces the prelude by the lines of a text. Refused: `NotOpen`, else bytes that are no UTF-8, else as `Preview::set_prelude` refuses it; then the preview and
/// `changes` are as they were.
#[unsafe(no_mangle)]
pub extern "C" fn jirmoans_set_prelude(
    alloc: Global,
    handle: &mut Handle,
    text: &[u8],
    changes: &mut Changes,
) -> Fault
    ensures { Answers (SetsPrelude text.now) handle.old.slot.held handle.new.slot.held result changes.old changes.new }
{
    let Some(mut session) = handle.take(alloc) else {
        return Refusal::NotOpen.fault();
    };
    let ended = session.set_prelude(text);
    handle.put(session);
    answer(ended, changes)
}

/// The HTML of a unit. Refused: `NotOpen`, else `NoSuchUnit`, else want of memory; then `piece` is as it was, but after want of memory the text that was shown
/// before is gone.
#[unsafe(no_mangle)]
pub extern "C" fn jirmoans_piece(
    alloc: Global,
    handle: &mut Handle,
    unit: usize,
    piece: &mut Text,
) -> Fault
    ensures { Answers (ShowsPiece unit) handle.old.slot.held handle.new.slot.held result piece.old piece.new }
{
    let Some(mut session) = handle.take(alloc) else {
        return Refusal::NotOpen.fault();
    };
    let ended = session.piece(unit);
    handle.put(session);
    answer(ended, piece)
}

/// The HTML of a whole text, with the entities, the options and the prelude of a preview. Refused: `NotOpen`, else bytes that are no UTF-8, else as `to_html` refuses
/// it; then `html` is as it was.
#[unsafe(no_mangle)]
pub extern "C" fn jirmoans_html(
    alloc: Global,
    handle: &mut Handle,
    text: &[u8],
    html: &mut Text,
) -> Fault
    ensures { Answers (ShowsHtml text.now) handle.old.slot.held handle.new.slot.held result html.old html.new }
{
    let Some(mut session) = handle.take(alloc) else {
        return Refusal::NotOpen.fault();
    };
    let ended = session.html(text);
    handle.put(session);
    answer(ended, html)
}

/// The line at which a unit begins. Refused: `NotOpen`, else `NoSuchUnit`; then `line` is as it was.
#[unsafe(no_mangle)]
pub extern "C" fn jirmoans_first_line(
    alloc: Global,
    handle: &mut Handle,
    unit: usize,
    line: &mut usize,
) -> Fault
    ensures { Answers (BeginsAt unit) handle.old.slot.held handle.new.slot.held result line.old line.new }
{
    let Some(mut session) = handle.take(alloc) else {
        return Refusal::NotOpen.fault();
    };
    let ended = session.first_line(unit);
    handle.put(session);
    answer(ended, line)
}

/// How many units the text has; none where the preview is not open.
#[unsafe(no_mangle)]
pub extern "C" fn jirmoans_units(alloc: Global, handle: &mut Handle) -> usize
    ensures value { result ≡ units_in handle.old.slot.held }
    ensures kept { handle.new.slot.held ≡ handle.old.slot.held }
{
    let Some(session) = handle.take(alloc) else {
        return 0;
    };
    let units = session.preview.units();
    handle.put(session);
    units
}

/// How many lines the text has; none where the preview is not open.
#[unsafe(no_mangle)]
pub extern "C" fn jirmoans_lines(alloc: Global, handle: &mut Handle) -> usize
    ensures value { result ≡ lines_in handle.old.slot.held }
    ensures kept { handle.new.slot.held ≡ handle.old.slot.held }
{
    let Some(session) = handle.take(alloc) else {
        return 0;
    };
    let lines = session.preview.len();
    handle.put(session);
    lines
}
