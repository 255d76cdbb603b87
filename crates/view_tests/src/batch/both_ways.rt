//! Texts whose units are written as they are found, and texts that are read first.

use super::calls::{Form, PLAIN, html_of};
use super::texts::{Draws, push_times};
use mdbatch::EditFault;
use mdtext::{NoMemory, lines_of};
use std::alloc::Global;
use std::process::Abort;
use std::test::Fail;

/// Whether a text is refused as before a line, but for the line of the refusal.
fn is_a_line_later(fault: EditFault, behind: EditFault) -> bool {
    match (fault, behind) {
        (EditFault::InlineTooDeep { line }, EditFault::InlineTooDeep { line: later })
        | (EditFault::NestedTooDeep { line }, EditFault::NestedTooDeep { line: later }) =>
            line.checked_add(1) == Some(later),
        (fault, behind) => fault == behind,
    }
}

/// Whether a text is answered as before a line, but for the line of a refusal.
fn are_alike(html: &Result<String, EditFault>, behind: &Result<String, EditFault>) -> bool {
    match (html, behind) {
        (Err(fault), Err(behind)) => is_a_line_later(*fault, *behind),
        (html, behind) => html == behind,
    }
}

/// Appends the text behind a line of so many blanks that its units are not written as they are found.
fn push_behind_blanks(text: &str, behind: &mut String) -> Result<(), NoMemory> {
    push_times(" ", 32, behind)?;
    behind.push_str("\n")?;
    behind.push_str(text)
}

fn html_behind_blanks(
    alloc: Global,
    text: &str,
    form: Form,
) -> Result<Result<String, EditFault>, Fail> {
    let mut behind = String::new(alloc);
    push_behind_blanks(text, &mut behind)?;
    html_of(alloc, &behind, form, &[])
}

/// Whether the answer to a text is the one to that text behind a line of so many blanks that its units are not written as they are found, but for the line of a refusal.
fn agree_both_ways(alloc: Global, text: &str, form: Form) -> Result<bool, Fail> {
    let html = html_of(alloc, text, form, &[])?;
    let behind = html_behind_blanks(alloc, text, form)?;
    Ok(are_alike(&html, &behind))
}

/// Compares both ways on a text that begins with no byte order mark. Answers whether it did, and defines nothing.
fn check_both_ways(rt: &impl Abort, alloc: Global, text: &str, form: Form) -> Result<bool, Fail> {
    if text.starts_with("\u{FEFF}") {
        return Ok(false);
    }
    assert!(rt; agree_both_ways(alloc, text, form)?, "{text}");
    Ok(!text.contains("]:"))
}

/// The same with the next text.
fn check_next(rt: &impl Abort, alloc: Global, draws: &mut Draws) -> Result<bool, Fail> {
    let text = draws.text(alloc)?;
    check_both_ways(rt, alloc, &text, draws.form())
}

#[test]
fn both_ways_answer_alike(rt: HostRuntime) -> Result<(), Fail> {
    let mut draws = Draws { state: 21 };
    let mut defines_none: usize = 0;
    for _ in 0..2000 {
        if check_next(&rt, rt.alloc(), &mut draws)? {
            defines_none = defines_none.saturating_add(1);
        }
    }
    // Such a text is written as it is found, unless a line of it begins as if containers lay deep in it.
    assert!(rt; defines_none > 100, "{defines_none} texts");
    Ok(())
}

static PARTS: [&str; 4] = ["*a* ", "[", "<", "[a](/b)\n\n"];

/// Appends the part many times, a paragraph, and so many markers of block quotes in the last line.
fn push_behind_part(part: &str, quotes: usize, text: &mut String) -> Result<(), NoMemory> {
    push_times(part, 400, text)?;
    text.push_str("a]\n\nx\n")?;
    push_times(">", quotes, text)
}

fn behind_part(alloc: Global, part: &str, quotes: usize) -> Result<String, NoMemory> {
    let mut text = String::new(alloc);
    push_behind_part(part, quotes, &mut text)?;
    Ok(text)
}

/// How many lines stand before the quotes.
fn lines_behind(alloc: Global, part: &str) -> Result<usize, Fail> {
    let text = behind_part(alloc, part, 0)?;
    Ok(lines_of(alloc, &text)?.len())
}

/// Whether the text with so many quotes is refused for this, or for nothing.
fn is_answered(
    alloc: Global,
    part: &str,
    quotes: usize,
    fault: Option<EditFault>,
) -> Result<bool, Fail> {
    let text = behind_part(alloc, part, quotes)?;
    Ok(html_of(alloc, &text, PLAIN, &[])?.err() == fault)
}

/// A container that begins too deep in the last line is the answer, and no unit before it is written first.
#[test]
fn a_last_line_too_deep_is_seen_first(rt: HostRuntime) -> Result<(), Fail> {
    for part in &PARTS {
        let line = lines_behind(rt.alloc(), part)?;
        let fault = EditFault::NestedTooDeep { line };
        assert!(rt; is_answered(rt.alloc(), part, 0, None)?, "{part:?}");
        assert!(rt; is_answered(rt.alloc(), part, 65, Some(fault))?, "{part:?}");
    }
    Ok(())
}
