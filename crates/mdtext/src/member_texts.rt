//! What the members of an entity file give, in the file's order until all are gathered.
ghost use Rattle.std.specs.Prelude.{◌≡◌, ◌≢◌, ◌+◌, ◌++◌, ◌∷◌, ◌<◌, List, ℕ, [], All, Some, None, IfErr, IfOk, OnOk, false, length, map, option_map, slice_index_or, true};
ghost use Rattle.std.specs.List.Sorted.{IsPermutation};
ghost use Rattle.mdtext.specs.MemberTexts.{AreHeld, IsHeld, IsTable, StandInOrder, all_given, gathered, given, given_more, given_table, name_in, put_each};

use crate::NoMemory;
use crate::entity_file::{TableFault, counts, name_of};
use crate::named_texts::{NamedTexts, Span, keep, named_text};
use std::alloc::Global;

/// The names and the texts lie as in a table, but for their order. Where a member has no text `characters`, its span
/// ends before a text could begin.
#[derive(Drop)]
pub struct MemberTexts {
    bytes: Vec<u8>,
    spans: Vec<Span>,
    // Whether the name of a member that counts is no reference's.
    has_bad_name: bool,
}

impl MemberTexts {
    pub fn new(alloc: Global) -> MemberTexts
        ensures held { AreHeld result }
        ensures none { gathered result ≡ (false, []) }
    {
        MemberTexts {
            bytes: Vec::new(alloc),
            spans: Vec::new(alloc),
            has_bad_name: false,
        }
    }

    /// Adds what a member gives, by the text of its `characters`.
    pub fn add(&mut self, key: &str, characters: Option<&str>) -> Result<(), NoMemory>
        requires { AreHeld self.old }
        ensures held { OnOk result (AreHeld self.new) }
        ensures more { OnOk result (gathered self.new ≡ given_more key.now (option_map (λ s. s.now) characters.entry) (gathered self.old)) }
    {
        if !counts(key) {
            return Ok(());
        }
        match name_of(key) {
            Some(name) => self.give(name, characters),
            None => {
                self.has_bad_name = true;
                Ok(())
            }
        }
    }

    fn give(&mut self, name: &str, characters: Option<&str>) -> Result<(), NoMemory>
        requires held { AreHeld self.old }
        requires some { 0 < length name.now }
        ensures held { OnOk result (AreHeld self.new) }
        ensures more { OnOk result (gathered self.new ≡ ((gathered self.old).0, (gathered self.old).1 ++ (name.now, option_map (λ s. s.now) characters.entry) ∷ [])) }
    {
        let span = hold(&mut self.bytes, name, characters)?;
        self.spans.push(span)?;
        Ok(())
    }

    /// The table of the members: of two that give to one name the later counts.
    ///
    /// `BadEntry` where one that counts has no reference's name or no text.
    pub fn into_table(self, alloc: Global) -> Result<NamedTexts, TableFault>
        requires { AreHeld self }
        ensures ok { IfOk result (λ table. given_table (gathered self) ≡ Some table) }
        ensures err { IfErr result (λ fault. fault ≢ TableFault.NoMemory
            → (fault ≡ TableFault.BadEntry) × (given_table (gathered self) ≡ None)) }
    {
        let MemberTexts {
            mut bytes,
            mut spans,
            has_bad_name,
        } = self;
        if has_bad_name {
            return Err(TableFault::BadEntry);
        }
        bytes.shrink_to_fit();
        spans.shrink_to_fit();
        put_in_order(&bytes, &mut spans)?;
        if is_table(&bytes, &spans) {
            return Ok(NamedTexts::of_spans(bytes, spans));
        }
        table_of(alloc, &bytes, &spans)
    }
}

// Appends a name, and its text where it has one.
fn hold(bytes: &mut Vec<u8>, name: &str, characters: Option<&str>) -> Result<Span, NoMemory>
    requires { 0 < length name.now }
    ensures longer { OnOk result ((more : List ℕ) × (bytes.new.items ≡ bytes.old.items ++ more)) }
    ensures given { IfOk result (λ span. given bytes.new.items span ≡ (name.now, option_map (λ s. s.now) characters.entry)) }
    ensures held { IfOk result (λ span. IsHeld bytes.new.items span) }
{
    let Some(text) = characters else {
        return hold_bare(bytes, name);
    };
    keep(bytes, name, text)
}

fn hold_bare(bytes: &mut Vec<u8>, name: &str) -> Result<Span, NoMemory>
    ensures { IfOk result (λ span. (bytes.new.items ≡ bytes.old.items ++ name.now)
        × (span.name ≡ length bytes.old.items) × (span.text ≡ length bytes.new.items) × (span.end ≡ length bytes.old.items)) }
{
    let start = bytes.len();
    bytes.extend_from_slice(name.as_bytes())?;
    Ok(Span {
        name: start,
        text: bytes.len(),
        end: start,
    })
}

fn name_in(bytes: &[u8], span: Span) -> &[u8]
    ensures { result.now ≡ name_in bytes.now span }
{
    match bytes.get(span.name..span.text) {
        Some(name) => name,
        None => &[],
    }
}

// Sorts by the names; what gives to one name stays in turn.
fn put_in_order(bytes: &[u8], spans: &mut Vec<Span>) -> Result<(), NoMemory>
    ensures order { OnOk result (StandInOrder bytes.now spans.new.items) }
    ensures same { put_each (map (given bytes.now) spans.old.items) [] ≡ put_each (map (given bytes.now) spans.new.items) [] }
    ensures moved { IsPermutation spans.old.items spans.new.items }
{
    spans.sort_by(|a, b| name_in(bytes, *a).cmp(name_in(bytes, *b)))
}

// Whether each name stands once and has a text.
fn is_table(bytes: &[u8], spans: &[Span]) -> bool
    ensures { result ≡ true → IsTable bytes.now spans.now }
{
    for at in 0..spans.len() {
        let span = spans[at];
        if span.end < span.text || is_given_again(bytes, spans, at) {
            return false;
        }
    }
    true
}

// The table of texts that stand in their names' order.
fn table_of(alloc: Global, bytes: &[u8], spans: &[Span]) -> Result<NamedTexts, TableFault>
    requires held { All (IsHeld bytes.now) spans.now }
    requires order { StandInOrder bytes.now spans.now }
    ensures ok { IfOk result (λ table. all_given (put_each (map (given bytes.now) spans.now) []) ≡ Some table) }
    ensures err { IfErr result (λ fault. fault ≢ TableFault.NoMemory
        → (fault ≡ TableFault.BadEntry) × (all_given (put_each (map (given bytes.now) spans.now) []) ≡ None)) }
{
    let mut table = NamedTexts::with_room(alloc, spans.len())?;
    for at in 0..spans.len() {
        if is_given_again(bytes, spans, at) {
            continue;
        }
        let span = spans[at];
        if span.end < span.text {
            return Err(TableFault::BadEntry);
        }
        let (name, text) = named_text(bytes, span);
        table.put(name, text)?;
    }
    table.fit();
    Ok(table)
}

// Whether the next one gives to the same name.
fn is_given_again(bytes: &[u8], spans: &[Span], at: usize) -> bool
    requires { at < length spans.now }
    ensures again { result ≡ true → (at + 1 < length spans.now) × ((d : Span) → name_in bytes.now (slice_index_or spans.now at d) ≡ name_in bytes.now (slice_index_or spans.now (at + 1) d)) }
    ensures last { result ≡ false → at + 1 < length spans.now → (d : Span) → ¬ (name_in bytes.now (slice_index_or spans.now at d) ≡ name_in bytes.now (slice_index_or spans.now (at + 1) d)) }
{
    at + 1 < spans.len() && name_in(bytes, spans[at]) == name_in(bytes, spans[at + 1])
}
