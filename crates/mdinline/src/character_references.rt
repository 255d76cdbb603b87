//! Entity and numeric character references (CommonMark 2.5).

ghost use Rattle.std.specs.Prelude.{◌≡◌, ◌+◌, ◌<◌, ◌++◌, IfOk, OnOk, IfSome, length, drop, slice_index, option_map, string_bytes, true};
ghost use Rattle.std.specs.Str.{IsCharBoundary};
ghost use Rattle.mdtext.specs.CharacterReferences.{reference};
ghost use Rattle.mdtext.specs.Referents.{meaning_of};
ghost use Rattle.mdscan.specs.Spans.{IsEndAfter};
ghost use Rattle.inlinespec.specs.CharacterReferences.{without_references, reference_lexeme};
ghost use Rattle.mdinline.specs.held.LeafEvents.{IsTokenOf};
ghost use Rattle.mdinline.specs.held.ReadPending.{is_leaf};
ghost use Rattle.mdinline.specs.held.Recognised.{IsFound};

use crate::scanner::{Found, leaf_of};
use crate::tokens::Token;
use mdtext::{Entities, Reference, push_reference, read_reference};
use std::alloc::AllocError;

/// The reference whose `&` stands at a place.
pub(crate) fn reference<'a>(text: &str, at: usize, entities: &'a Entities) -> Option<Found<'a>>
    requires inside { at < length text.now }
    requires mark { slice_index text.now at < 128 }
    ensures end { IfSome result (λ found. IsEndAfter text.now at found.end) }
    ensures token { IfSome result (λ found. IsTokenOf text.now found.token) }
    ensures leaf { IfSome result (λ found. is_leaf found.token ≡ true) }
    ensures value { IsFound entities.now text.now at (reference_lexeme (drop at text.now) (reference entities.now (drop (at + 1) text.now))) result }
{
    match reference_at(text, at, entities) {
        Some(reference) => Some(leaf_of(Token::Meaning(reference.referent), at + reference.len)),
        None => None,
    }
}

fn reference_at<'a>(text: &str, at: usize, entities: &'a Entities) -> Option<Reference<'a>>
    requires inside { at < length text.now }
    requires mark { slice_index text.now at < 128 }
    ensures end { IfSome result (λ reference. IsEndAfter text.now at (at + reference.len)) }
    ensures value { option_map meaning_of result ≡ reference entities.now (drop (at + 1) text.now) }
{
    read_reference(&text[at + 1..], entities)
}

/// Appends a text in which each reference is replaced by what it stands for. Backslashes stay.
pub(crate) fn append_without_references(
    text: &str,
    entities: &Entities,
    out: &mut String,
) -> Result<(), AllocError>
    ensures { OnOk result (string_bytes out.new ≡ string_bytes out.old ++ without_references entities.now 0 text.now) }
{
    let mut rest = text;
    while let Some((plain, after)) = rest.split_once('&') {
        out.push_str(plain)?;
        let taken = push_reference(after, entities, out)?;
        rest = &after[taken..];
    }
    out.push_str(rest)?;
    Ok(())
}
