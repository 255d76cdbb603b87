//! The lines of a text.
ghost use Rattle.std.specs.Prelude.{◌≡◌, ◌-◌, ◌^◌, ◌<◌, ◌∷◌, IfOk, IsFalse, IsTrue, drop, if◌then◌else◌, length, map, min, string_bytes};
ghost use Rattle.mdtext.specs.Lines.{without_nul, without_mark, begins_with_lf, split_lines, text_lines};
ghost use Rattle.std.specs.Str.{IsUtf8};

use crate::NoMemory;
use crate::byte_class::Class;
use crate::plain_runs::split_at_special;
use memchr::memchr;
use std::alloc::Global;

/// The lines of a whole text (CommonMark 2.1): a line ends at LF, at CR LF, at CR without LF after it, and at the end of
/// the text. A leading U+FEFF is dropped, and U+FFFD stands for each U+0000. The empty text has no line. Refused for want of memory alone.
pub fn lines_of(alloc: Global, text: &str) -> Result<Vec<String>, NoMemory>
    ensures { IfOk result (λ lines. map string_bytes lines.items ≡ text_lines text.now) }
{
    let mut lines = Vec::new(alloc);
    let mut rest = after_mark(text);
    while !rest.is_empty() {
        let (line, after) = split_line(rest);
        lines.push(clean_line(alloc, line)?)?;
        rest = after;
    }
    Ok(lines)
}

/// The text without U+FEFF at its beginning: what a whole text is read from. Takes no memory.
pub fn after_mark(text: &str) -> &str
    ensures { result.now ≡ without_mark text.now }
{
    match text.strip_prefix("\u{FEFF}") {
        Some(rest) => rest,
        None => text,
    }
}

/// The first line of a text that is not empty, without its ending, and the text after that ending (CommonMark 2.1). Takes no memory.
pub fn split_line(text: &str) -> (&str, &str)
    requires { 0 < length text.now }
    ensures lines { split_lines text.now ≡ result.0.now ∷ split_lines result.1.now }
    ensures shorter { length result.1.now < length text.now }
    ensures text { IsUtf8 result.1.now }
{
    let (line, ending) = split_at_special(text, &Class::of(b"\r\n"));
    let Some((byte, after)) = ending else {
        return (line, "");
    };
    if byte == b'\r' {
        return (line, after_lf(after));
    }
    (line, after)
}

fn after_lf(text: &str) -> &str
    ensures { result.now ≡ (if begins_with_lf text.now then drop 1 text.now else text.now) }
{
    match text.strip_prefix('\n') {
        Some(rest) => rest,
        None => text,
    }
}

/// The line with U+FFFD for each U+0000 (CommonMark 2.3). Refused for want of memory alone.
pub fn clean_line(alloc: Global, line: &str) -> Result<String, NoMemory>
    ensures { IfOk result (λ clean. string_bytes clean ≡ without_nul line.now) }
{
    let nul = Class::of(b"\0");
    let mut clean = String::with_capacity(alloc, line.len())?;
    let mut rest = line;
    loop {
        let (plain, special) = split_at_special(rest, &nul);
        clean.push_str(plain)?;
        let Some((_, after)) = special else {
            return Ok(clean);
        };
        clean.push_str("\u{FFFD}")?;
        rest = after;
    }
}

/// How many bytes the line has after U+FFFD stands for each U+0000, up to the greatest number. It takes no memory.
pub fn clean_len(line: &str) -> usize
    ensures { result ≡ min (length (without_nul line.now)) (2 ^ 64 - 1) }
{
    if is_clean(line) {
        return line.len();
    }
    replaced_len(line.as_bytes())
}

/// Whether no U+0000 stands in the text, so that it is read as it is (CommonMark 2.3). Takes no memory.
#[tactic(auto, using(crate::proofs::FirstPlaces::stays, crate::proofs::FirstPlaces::grows))]
pub fn is_clean(text: &str) -> bool
    ensures clean { IsTrue result → without_nul text.now ≡ text.now }
    ensures nul { IsFalse result → length text.now < length (without_nul text.now) }
{
    memchr(0, text.as_bytes()).is_none()
}

fn replaced_len(line: &[u8]) -> usize
    ensures { result ≡ min (length (without_nul line.now)) (2 ^ 64 - 1) }
{
    let mut len: usize = 0;
    for byte in line {
        len = len.saturating_add(if *byte == 0 { 3 } else { 1 });
    }
    len
}
