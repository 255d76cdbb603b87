//! What a text may hold, guessed from its bytes. No answer depends on a guess.

use memchr::memmem;

/// Whether the units of a text are to be written as they are found. They are not where a label may be defined, for which units have to wait, or a container
/// may begin too deep: such a text is refused before anything is written of the units that wait.
pub(crate) fn is_written_at_once(text: &str, max_containers: usize) -> bool {
    !may_hold_definitions(text) && !may_nest_too_deep(text.as_bytes(), max_containers)
}

/// Whether a label may be defined: `]:` stands behind one that is (CommonMark 4.7).
fn may_hold_definitions(text: &str) -> bool {
    memmem::find(text.as_bytes(), b"]:").is_some()
}

/// Whether a line may begin a container that lies in so many others: it begins with at least half as many blanks and markers, since a tab takes the indentation
/// of two items at most, and every other byte that of one container (CommonMark 2.2, 5). There are two at least: one of the marker, and one of what it lies in.
fn may_nest_too_deep(text: &[u8], max_containers: usize) -> bool {
    let least = (max_containers / 2).max(2);
    let last = text.len().saturating_sub(1);
    // A run of so many bytes has one of them at one of these places, and the next one behind it.
    let mut at = least - 2;
    while at < last {
        if are_no_letters(text[at], text[at + 1])
            && is_long_prefix(&text[..at], &text[at..], least)
        {
            return true;
        }
        at = at.saturating_add(least - 1);
    }
    false
}

/// Whether both bytes stand before the letters, as all do of which a prefix is made.
fn are_no_letters(byte: u8, next: u8) -> bool {
    byte < b'A' && next < b'A'
}

/// Whether a line begins with at least so many blanks and markers, some of which stand before a place and the others behind it.
fn is_long_prefix(before: &[u8], behind: &[u8], least: usize) -> bool {
    let near = &before[before.len().saturating_sub(least)..];
    let begun = near
        .iter()
        .rev()
        .take_while(|byte| is_in_prefix(**byte))
        .count();
    let begins_line = match before[..before.len().saturating_sub(begun)].last() {
        Some(byte) => matches!(byte, b'\n' | b'\r'),
        None => true,
    };
    begins_line && begins_with(behind, least.saturating_sub(begun))
}

/// Whether at least so many blanks and markers stand at the front.
fn begins_with(text: &[u8], count: usize) -> bool {
    match text.get(..count) {
        Some(front) => front.iter().all(|byte| is_in_prefix(*byte)),
        None => false,
    }
}

/// Whether a byte is a blank or one of a container's marker (CommonMark 5).
fn is_in_prefix(byte: u8) -> bool {
    matches!(
        byte,
        b' ' | b'\t' | b'>' | b'-' | b'+' | b'*' | b'0'..=b'9' | b'.' | b')'
    )
}
