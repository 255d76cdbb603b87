//! Strikethrough (GFM Strikethrough (extension)): runs of `~` are found and paired as those of emphasis are (`delimiters`, `emphasis`), but one tilde may
//! be text.

ghost use Rattle.std.specs.Prelude.{◌≡◌};
ghost use Rattle.inlinespec.specs.Strikethrough.{is_lone_tilde};

use mdpair::DelimiterChar;

/// Whether a run is of one tilde.
pub(crate) fn is_lone_tilde(delimiter: DelimiterChar, length: usize) -> bool
    ensures { result ≡ is_lone_tilde delimiter length }
{
    match delimiter {
        DelimiterChar::Asterisk => false,
        DelimiterChar::Underscore => false,
        DelimiterChar::Tilde => length == 1,
    }
}
