//! Autolinks (CommonMark 6.5).

ghost use Rattle.std.specs.Prelude.{◌≡◌, ◌-◌, ◌<◌, ℕ, List, IfSome, length, option_map, slice_index, true};
ghost use Rattle.mdtext.specs.EntityTable.{EntityTable};
ghost use Rattle.mdscan.specs.Autolink.{autolink_at};
ghost use Rattle.mdscan.specs.Spans.{IsEndAfter, IsSpanOf, part};
ghost use Rattle.inlinespec.specs.Autolinks.{autolink_lexeme};
ghost use Rattle.mdinline.specs.held.LeafEvents.{IsTokenOf, autolink_events, leaf_events};
ghost use Rattle.mdinline.specs.held.ReadPending.{is_leaf};
ghost use Rattle.mdinline.specs.held.Recognised.{lexeme_of};

use crate::scanner::{Found, leaf_of};
use crate::tokens::Token;
use mdscan::{Span, autolink};

/// The autolink at a place.
pub(crate) fn autolink_found(text: &str, at: usize) -> Option<Found<'static>>
    requires inside { at < length text.now }
    requires mark { slice_index text.now at < 128 }
    ensures end { IfSome result (λ found. IsEndAfter text.now at found.end) }
    ensures token { IfSome result (λ found. IsTokenOf text.now found.token) }
    ensures leaf { IfSome result (λ found. is_leaf found.token ≡ true) }
    ensures value { (entities : EntityTable) → option_map (λ found. lexeme_of entities text.now at found) result
        ≡ option_map (λ auto. autolink_lexeme entities text.now at auto) (autolink_at text.now at) }
{
    match autolink(text, at) {
        Some(auto) => {
            let inside = Span {
                start: at + 1,
                end: auto.end - 1,
            };
            let token = autolink_token(inside, auto.mail);
            Some(leaf_of(token, auto.end))
        }
        None => None,
    }
}

/// The autolink between whose angle brackets this stands.
fn autolink_token(inside: Span, is_mail: bool) -> Token<'static>
    ensures leaf { is_leaf result ≡ true }
    ensures token { (text : List ℕ) → IsSpanOf text inside → IsTokenOf text result }
    ensures value { (entities : EntityTable) (text : List ℕ) → leaf_events entities text result ≡ autolink_events entities (part text inside) is_mail }
{
    if is_mail {
        Token::MailAutolink(inside)
    } else {
        Token::Autolink(inside)
    }
}
