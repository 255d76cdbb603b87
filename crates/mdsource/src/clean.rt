//! The lines of an edit or of a prelude, as they are held.
ghost use Rattle.std.specs.Prelude.{◌≡◌, IfOk, map, string_bytes};
ghost use Rattle.mdtext.specs.Lines.{without_nul};

use mdtext::clean_line;
use std::alloc::{AllocError, Global};

/// The lines with U+FFFD for each NUL, in a list with room for so many more.
pub(crate) fn cleaned(alloc: Global, lines: &[&str], room: usize) -> Result<Vec<String>, AllocError>
    ensures { IfOk result (λ clean. map string_bytes clean.items ≡ map without_nul (map (λ line. line.now) lines.now)) }
{
    let mut clean_lines = Vec::with_capacity(alloc, lines.len().saturating_add(room))?;
    for line in lines {
        clean_lines.push(clean_line(alloc, line)?)?;
    }
    Ok(clean_lines)
}

/// The lines as they are, in a list with room for so many more.
pub(crate) fn copied(alloc: Global, lines: &[&str], room: usize) -> Result<Vec<String>, AllocError>
    ensures { IfOk result (λ copied. map string_bytes copied.items ≡ map (λ line. line.now) lines.now) }
{
    let mut copied = Vec::with_capacity(alloc, lines.len().saturating_add(room))?;
    for line in lines {
        copied.push(String::from_str(alloc, line)?)?;
    }
    Ok(copied)
}
