//! Runs of one byte, or of spaces and tabs, at the ends of a text.

ghost use Rattle.std.specs.Prelude.{◌≡◌, ◌==◌, ◌<◌, ◌≤◌, IsTrue, length, slice_index};
ghost use Rattle.std.specs.Char.{is_ascii_alphanumeric, is_ascii_digit};
ghost use Rattle.std.specs.List.{list_any, prefix_len, suffix_len};
ghost use Rattle.mdscan.specs.Blanks.{is_blank, is_blank_text, begins_with, ends_or_blank};

/// Whether a byte is a space or a tab.
pub(crate) fn blank(byte: u8) -> bool
    ensures { result ≡ is_blank byte }
{
    matches!(byte, b' ' | b'\t')
}

/// Whether a text holds nothing but spaces and tabs.
pub(crate) fn all_blank(text: &[u8]) -> bool
    ensures { result ≡ is_blank_text text.now }
{
    text.iter().all(|byte| blank(*byte))
}

/// How many of the first bytes are `mark`.
pub(crate) fn leading(text: &[u8], mark: u8) -> usize
    ensures count { result ≡ prefix_len (λ b. b == mark) text.now }
    ensures within { result ≤ length text.now }
{
    text.iter().take_while(|byte| **byte == mark).count()
}

/// How many of the first bytes are spaces or tabs.
pub(crate) fn leading_blanks(text: &[u8]) -> usize
    ensures count { result ≡ prefix_len is_blank text.now }
    ensures within { result ≤ length text.now }
{
    text.iter().take_while(|byte| blank(**byte)).count()
}

/// How many of the last bytes are spaces or tabs.
pub(crate) fn trailing_blanks(text: &[u8]) -> usize
    ensures count { result ≡ suffix_len is_blank text.now }
    ensures within { result ≤ length text.now }
{
    text.iter().rev().take_while(|byte| blank(**byte)).count()
}

/// Whether the first byte is `mark`.
pub(crate) fn begins(text: &[u8], mark: u8) -> bool
    ensures value { result ≡ begins_with mark text.now }
    ensures some { IsTrue result → 0 < length text.now }
    ensures first { IsTrue result → slice_index text.now 0 ≡ mark }
{
    match text {
        [first, ..] => *first == mark,
        [] => false,
    }
}

/// Whether a byte stands somewhere in a text.
pub(crate) fn holds(text: &[u8], mark: u8) -> bool
    ensures { result ≡ list_any (λ b. b == mark) text.now }
{
    text.iter().any(|byte| *byte == mark)
}

/// Whether a text is empty or begins with a space or tab.
pub(crate) fn blank_follows(text: &[u8]) -> bool
    ensures { result ≡ ends_or_blank text.now }
{
    match text {
        [first, ..] => blank(*first),
        [] => true,
    }
}

/// How many of the last bytes are `mark`.
pub(crate) fn trailing(text: &[u8], mark: u8) -> usize
    ensures count { result ≡ suffix_len (λ b. b == mark) text.now }
    ensures within { result ≤ length text.now }
{
    text.iter().rev().take_while(|byte| **byte == mark).count()
}

/// How many of the first bytes are ASCII digits.
pub(crate) fn leading_digits(text: &[u8]) -> usize
    ensures count { result ≡ prefix_len is_ascii_digit text.now }
    ensures within { result ≤ length text.now }
{
    text.iter().take_while(|byte| byte.is_ascii_digit()).count()
}

/// How many of the first bytes are ASCII letters or digits.
pub(crate) fn leading_name(text: &[u8]) -> usize
    ensures count { result ≡ prefix_len is_ascii_alphanumeric text.now }
    ensures within { result ≤ length text.now }
{
    text.iter()
        .take_while(|byte| byte.is_ascii_alphanumeric())
        .count()
}
