//! What follows a link's text: where the link leads (CommonMark 6.3, 6.4).

ghost use Rattle.std.specs.Prelude.{◌≡◌, ◌+◌, ◌-◌, ℕ, IfOk, OnOk, IfSome, List, take, drop, if◌then◌else◌};
ghost use Rattle.std.specs.Str.{IsCharBoundary};
ghost use Rattle.mdtext.specs.EntityTable.{EntityTable};
ghost use Rattle.mdtext.specs.Labels.{label_of};
ghost use Rattle.mdinline.specs.held.Brackets.{IsBehindBracket, IsLinkEnd};
ghost use Rattle.mdinline.specs.held.FoundLinks.{IsLinkOf};
ghost use Rattle.mdinline.specs.held.LeafEvents.{IsGoalOf};
ghost use Rattle.inlinespec.specs.LinkTails.{by_label, empty_brackets_at, link_tail_at};
ghost use Rattle.inlinespec.specs.TextReading.{by_link_tail};

use crate::asked::AsksLabels;
use crate::labels::Labels;
use crate::tokens::Goal;
use mdscan::{inline_tail, link_label};
use mdtext::Label;
use std::alloc::{AllocError, Global};

/// Where a link or an image leads, and where what stands behind its text ends.
#[derive(Clone, Copy, Drop)]
pub(crate) struct FoundLink<'a> {
    pub goal: Goal<'a>,
    pub end: usize,
}

/// What makes a link or an image of the text from `begin` up to the `]` at a place: an inline tail behind it; a label in brackets behind it; or the text
/// itself as a label. A label that is looked up is asked for; `label` is what it is folded into.
#[tactic(auto, unfolding(inlinespec::specs::LinkTails::link_tail_at))]
pub(crate) fn link_of<'a, L: Labels, A: AsksLabels>(
    alloc: Global,
    text: &str,
    begin: usize,
    at: usize,
    labels: &'a L,
    asked: &mut A,
    label: &mut Label,
) -> Result<Option<FoundLink<'a>>, AllocError>
    requires begin { IsBehindBracket text.now at begin }
    requires at { IsCharBoundary text.now at }
    requires after { IsCharBoundary text.now (at + 1) }
    ensures end { IfOk result (λ found. IfSome found (λ reference. IsLinkEnd text.now (at + 1) reference.end)) }
    ensures goal { IfOk result (λ found. IfSome found (λ reference. IsGoalOf text.now reference.goal)) }
    ensures value { IfOk result (λ found. (entities : EntityTable) → IsLinkOf entities text.now at (by_link_tail (L.target labels.now) at
        (link_tail_at entities text.now (at + 1) (take (at - begin) (drop begin text.now)))) found) }
    ensures asks { OnOk result ((entities : EntityTable) → A.asks asked.old
        (by_link_tail (L.target labels.now) at (link_tail_at entities text.now (at + 1) (take (at - begin) (drop begin text.now)))).asks asked.new) }
{
    let after = at + 1;
    if let Some(tail) = inline_tail(text, after) {
        let goal = Goal::Tail {
            destination: tail.destination,
            title: tail.title,
        };
        return Ok(Some(FoundLink {
            goal,
            end: tail.end,
        }));
    }
    if let Some(span) = link_label(text, after) {
        let inside = &text[span.start..span.end];
        return look_up(alloc, inside, span.end + 1, labels, asked, label);
    }
    look_up(
        alloc,
        &text[begin..at],
        past_empty(text, after),
        labels,
        asked,
        label,
    )
}

/// The place after the `[]` at a place, if it stands there.
fn past_empty(text: &str, after: usize) -> usize
    requires { IsCharBoundary text.now after }
    ensures end { IsLinkEnd text.now after result }
    ensures value { result ≡ (if empty_brackets_at text.now after then after + 2 else after) }
{
    let bytes = text.as_bytes();
    if after + 1 < bytes.len() && bytes[after] == b'[' && bytes[after + 1] == b']' {
        after + 2
    } else {
        after
    }
}

/// The reference by a text, if that is a label.
fn look_up<'a, L: Labels, A: AsksLabels>(
    alloc: Global,
    inside: &str,
    end: usize,
    labels: &'a L,
    asked: &mut A,
    label: &mut Label,
) -> Result<Option<FoundLink<'a>>, AllocError>
    ensures end { IfOk result (λ found. IfSome found (λ reference. reference.end ≡ end)) }
    ensures goal { (text : List ℕ) → IfOk result (λ found. IfSome found (λ reference. IsGoalOf text reference.goal)) }
    ensures value { IfOk result (λ found. (entities : EntityTable) (text : List ℕ) (at : ℕ)
        → IsLinkOf entities text at (by_link_tail (L.target labels.now) at (by_label (label_of inside.now) end)) found) }
    ensures asks { OnOk result ((at : ℕ) → A.asks asked.old (by_link_tail (L.target labels.now) at (by_label (label_of inside.now) end)).asks asked.new) }
{
    if !label.fold(alloc, inside)? {
        return Ok(None);
    }
    asked.ask(label)?;
    match labels.find(label) {
        Some(target) => Ok(Some(FoundLink {
            goal: Goal::Known(target),
            end,
        })),
        None => Ok(None),
    }
}
