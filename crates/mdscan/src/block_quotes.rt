//! Block quotes.

ghost use Rattle.std.specs.Prelude.{◌≡◌};
ghost use Rattle.mdscan.specs.BlockQuote.{is_quote_marker};

use crate::byte_runs::begins;

/// Whether the rest of a line begins with a block quote marker (CommonMark 5.1). The marker is one byte.
#[tactic(auto, unfolding(crate::specs::BlockQuote::is_quote_marker))]
pub fn quote_marker(rest: &str) -> bool
    ensures { result ≡ is_quote_marker rest.now }
{
    begins(rest.as_bytes(), b'>')
}
