//! Code spans (CommonMark 6.1).

ghost use Rattle.std.specs.Prelude.{◌≡◌, ◌+◌, ◌-◌, ◌<◌, ◌≤◌, ◌==◌, ◌||◌, ℕ, List, true, false, not};
ghost use Rattle.std.specs.Prelude.{IfOk, IfSome, MatchOption, length, drop, slice_index, slice_range, option_map};
ghost use Rattle.std.specs.BTreeMap.{get};
ghost use Rattle.std.specs.List.{list_any};
ghost use Rattle.std.specs.Ordering.{nat_cmp};
ghost use Rattle.mdtext.specs.EntityTable.{EntityTable};
ghost use Rattle.mdscan.specs.Blanks.{begins_with};
ghost use Rattle.mdscan.specs.Spans.{IsEndAfter, IsSpanOf, part};
ghost use Rattle.inlinespec.specs.BacktickStrings.{IsNextString};
ghost use Rattle.mdinline.specs.held.BacktickTable.{HoldsLast, KnowsStrings};
ghost use Rattle.inlinespec.specs.CodeSpans.{as_one_line, before_backticks, code_inside, is_padded, is_space_or_feed, unpadded, code_lexeme};
ghost use Rattle.mdinline.specs.held.LeafEvents.{IsTokenOf};
ghost use Rattle.mdinline.specs.held.ReadPending.{is_leaf};
ghost use Rattle.mdinline.specs.held.Recognised.{IsFound};
ghost use Rattle.mdinline.specs.held.Ticks.{AreTicksFrom};

use crate::scanner::{Found, leaf_of};
use crate::texts::past_marks;
use crate::tokens::Token;
use mdscan::Span;
use mdtext::{Class, first_special};
use std::alloc::{AllocError, Global};
use std::collections::BTreeMap;

/// A run of backticks.
#[derive(Clone, Copy, Drop)]
pub(crate) struct Ticks {
    start: usize,
    end: usize,
}

/// The last run of backticks of each length in a text, so that no run that has none of its length behind it is searched for again. It is made where one is not
/// found for the first time.
#[derive(Drop)]
pub(crate) struct Backticks {
    last: Option<BTreeMap<usize, usize, Global>>,
}

impl Backticks {
    pub(crate) fn new() -> Backticks
        ensures { (text : List ℕ) → KnowsStrings text result }
    {
        Backticks { last: None }
    }

    /// The code span whose run of backticks stands at a place, or the run as text where no run of its length closes it.
    pub(crate) fn code_or_run(
        &mut self,
        alloc: Global,
        text: &str,
        at: usize,
    ) -> Result<Option<Found<'static>>, AllocError>
        requires inside { at < length text.now }
        requires mark { slice_index text.now at < 128 }
        ensures end { IfOk result (λ found. IfSome found (λ found. IsEndAfter text.now at found.end)) }
        ensures token { slice_index text.now at ≡ 96 → IfOk result (λ found. IfSome found (λ found. IsTokenOf text.now found.token)) }
        ensures leaf { IfOk result (λ found. IfSome found (λ found. is_leaf found.token ≡ true)) }
        ensures value { slice_index text.now at ≡ 96 → KnowsStrings text.now self.old
            → IfOk result (λ found. (entities : EntityTable)
            → IsFound entities text.now at (code_lexeme (drop at text.now) (code_inside (drop at text.now))) found) }
        ensures knows { KnowsStrings text.now self.old → KnowsStrings text.now self.new }
    {
        let bytes = text.as_bytes();
        let start = past_marks(bytes, at, b'`');
        match self.closing(alloc, bytes, start, start - at)? {
            Some(run) => {
                let content = without_padding(bytes, start, run.start);
                Ok(Some(leaf_of(Token::Code(content), run.end)))
            }
            None => {
                let run = Span {
                    start: at,
                    end: start,
                };
                Ok(Some(leaf_of(Token::Plain(run), start)))
            }
        }
    }

    /// The first run of this length from a place on.
    fn closing(
        &mut self,
        alloc: Global,
        text: &[u8],
        from: usize,
        size: usize,
    ) -> Result<Option<Ticks>, AllocError>
        requires { from ≤ length text.now }
        ensures place { IfOk result (λ found. IfSome found (λ run. AreTicksFrom text.now from run)) }
        ensures size { IfOk result (λ found. IfSome found (λ run. run.end ≡ run.start + size)) }
        ensures value { 0 < size → begins_with 96 (drop from text.now) ≡ false → KnowsStrings text.now self.old
            → IfOk result (λ found. option_map (λ run. run.start) found
            ≡ option_map (λ k. from + k) (before_backticks false size (drop from text.now))) }
        ensures knows { KnowsStrings text.now self.old → KnowsStrings text.now self.new }
    {
        if let Some(last) = &self.last {
            return Ok(known_closing(last, text, from, size));
        }
        let found = find_run(text, from, size);
        if found.is_none() {
            self.last = Some(last_runs(alloc, text)?);
        }
        Ok(found)
    }
}

fn last_runs(alloc: Global, text: &[u8]) -> Result<BTreeMap<usize, usize, Global>, AllocError>
    ensures { IfOk result (λ last. (k : ℕ) → HoldsLast text.now k (get nat_cmp last)) }
{
    let mut last = BTreeMap::new(alloc);
    let mut at = 0;
    while let Some(run) = next_run(text, at) {
        last.insert(run.end - run.start, run.start)?;
        at = run.end;
    }
    Ok(last)
}

fn known_closing(
    last: &BTreeMap<usize, usize, Global>,
    text: &[u8],
    from: usize,
    size: usize,
) -> Option<Ticks>
    requires { from ≤ length text.now }
    ensures place { IfSome result (λ run. AreTicksFrom text.now from run) }
    ensures size { IfSome result (λ run. run.end ≡ run.start + size) }
    ensures value { 0 < size → begins_with 96 (drop from text.now) ≡ false → ((k : ℕ) → HoldsLast text.now k (get nat_cmp last.now))
        → option_map (λ run. run.start) result ≡ option_map (λ k. from + k) (before_backticks false size (drop from text.now)) }
{
    match last.get(&size) {
        Some(last) if from <= *last => find_run(text, from, size),
        _ => None,
    }
}

fn find_run(text: &[u8], from: usize, size: usize) -> Option<Ticks>
    requires { from ≤ length text.now }
    ensures place { IfSome result (λ run. AreTicksFrom text.now from run) }
    ensures size { IfSome result (λ run. run.end ≡ run.start + size) }
    ensures value { 0 < size → option_map (λ run. run.start) result ≡ option_map (λ k. from + k) (before_backticks false size (drop from text.now)) }
{
    let mut at = from;
    while let Some(run) = next_run(text, at) {
        if run.end - run.start == size {
            return Some(run);
        }
        at = run.end;
    }
    None
}

/// The first run from a place on.
fn next_run(text: &[u8], from: usize) -> Option<Ticks>
    requires { from ≤ length text.now }
    ensures place { IfSome result (λ run. AreTicksFrom text.now from run) }
    ensures value { MatchOption result ((j : ℕ) → from ≤ j → slice_index text.now j ≡ 96 → ⊥)
        (λ run. IsNextString text.now from run.start run.end) }
{
    let start = from + first_special(&text[from..], &Class::of(b"`"));
    if start < text.len() && text[start] == b'`' {
        return Some(Ticks {
            start,
            end: past_marks(text, start, b'`'),
        });
    }
    None
}

/// The content of a code span: a space goes from each end where both have one and not all is spaces. Line endings are spaces too.
fn without_padding(text: &[u8], start: usize, end: usize) -> Span
    requires ordered { start ≤ end }
    requires inside { end ≤ length text.now }
    ensures from { start ≤ result.start }
    ensures ordered { result.start ≤ result.end }
    ensures to { result.end ≤ end }
    ensures starts { start < result.start → slice_index text.now (result.start - 1) < 128 }
    ensures ends { result.end < end → slice_index text.now result.end < 128 }
    ensures value { part text.now result ≡ unpadded (slice_range text.now start end) }
{
    if is_padded(&text[start..end]) {
        Span {
            start: start + 1,
            end: end - 1,
        }
    } else {
        Span { start, end }
    }
}

/// Whether a space stands at both ends, and something else between.
#[tactic(auto, using(inlinespec::proofs::CodeContents::padded))]
fn is_padded(inside: &[u8]) -> bool
    ensures two { result ≡ true → 1 < length inside.now }
    ensures first { result ≡ true → slice_index inside.now 0 < 128 }
    ensures last { result ≡ true → slice_index inside.now (length inside.now - 1) < 128 }
    ensures value { result ≡ is_padded (as_one_line inside.now) }
{
    inside.len() > 1
        && is_space(inside[0])
        && is_space(inside[inside.len() - 1])
        && holds_code(inside)
}

fn holds_code(inside: &[u8]) -> bool
    ensures { result ≡ list_any (λ b. not (is_space_or_feed b)) inside.now }
{
    inside.iter().any(|byte| !is_space(*byte))
}

/// Whether a byte is a space in a code span, where line endings are spaces too.
fn is_space(byte: u8) -> bool
    ensures ascii { result ≡ true → byte < 128 }
    ensures value { result ≡ is_space_or_feed byte }
{
    byte == b' ' || byte == b'\n'
}
