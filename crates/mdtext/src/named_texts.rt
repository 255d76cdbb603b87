//! Texts by their names.
ghost use Rattle.std.specs.Prelude.{◌≡◌, ◌+◌, ◌++◌, ℕ, List, [], IfOk, OnOk, length, option_map};
ghost use Rattle.std.specs.BTreeMap.{insert_entry};
ghost use Rattle.std.specs.Cmp.Lexicographic.{slice_cmp};
ghost use Rattle.std.specs.Map.{lookup};
ghost use Rattle.std.specs.Ordering.{nat_cmp};
ghost use Rattle.std.specs.Str.{IsUtf8, bytes_eq};
ghost use Rattle.mdtext.specs.NamedTexts.{AreNamedTexts, IsPlaceOf, LiesWithin, named_text, named_texts};

use crate::NoMemory;
use std::alloc::Global;
use std::cmp::Ordering;
use std::fmt;
use std::marker::Model;

/// Where a name and its text lie, one behind the other.
#[derive(Clone, Copy)]
pub struct Span {
    pub name: usize,
    pub text: usize,
    pub end: usize,
}

/// Names, each once, with their texts: all bytes in one block, as they came, and where they lie in the names' order.
#[derive(Drop)]
pub struct NamedTexts {
    bytes: Vec<u8>,
    spans: Vec<Span>,
}

impl Model for NamedTexts {
    ghost use Rattle.std.specs.Prelude.{List, ℕ};
    ghost use Rattle.mdtext.specs.NamedTexts.{AreNamedTexts, named_texts};

    ghost Value = { List (List ℕ × List ℕ) };

    ghost view = { λ held. named_texts held.bytes.items held.spans.items };

    ghost invariant = { λ held. AreNamedTexts held.bytes.items held.spans.items };
}

impl NamedTexts {
    /// None, with room for so many names.
    pub fn with_room(alloc: Global, names: usize) -> Result<NamedTexts, NoMemory>
        ensures { IfOk result (λ texts. texts ≡ []) }
    {
        Ok(NamedTexts {
            bytes: Vec::new(alloc),
            spans: Vec::with_capacity(alloc, names)?,
        })
    }

    /// The texts that lie at spans, which stand in the names' order.
    pub fn of_spans(bytes: Vec<u8>, spans: Vec<Span>) -> NamedTexts
        requires { AreNamedTexts bytes.items spans.items }
        ensures { result ≡ named_texts bytes.items spans.items }
    {
        NamedTexts { bytes, spans }
    }

    /// Puts a text in at a name, in place of one that is there. The bytes of the one that was there stay.
    pub fn put(&mut self, name: &str, text: &str) -> Result<(), NoMemory>
        ensures { OnOk result (self.new ≡ insert_entry (slice_cmp nat_cmp) self.old name.now text.now) }
    {
        let place = place_to_put(&self.bytes, &self.spans, name.as_bytes());
        let span = keep(&mut self.bytes, name, text)?;
        match place {
            Ok(place) => {
                self.spans[place] = span;
                Ok(())
            }
            Err(place) => {
                self.spans.insert(place, span)?;
                Ok(())
            }
        }
    }

    /// Gives back the room that no text needs, where there is memory to move the texts to.
    pub fn fit(&mut self)
        ensures { self.new ≡ self.old }
    {
        self.bytes.shrink_to_fit();
        self.spans.shrink_to_fit();
    }

    /// The text at a name. It takes no memory.
    pub fn get(&self, name: &str) -> Option<&str>
        ensures { option_map (λ text. text.now) result ≡ lookup (bytes_eq name.now) self.now }
    {
        match place_of(&self.bytes, &self.spans, name.as_bytes()) {
            Ok(place) => {
                let span = self.spans[place];
                Some(unsafe { std::str::from_utf8_unchecked(&self.bytes[span.text..span.end]) })
            }
            Err(_) => None,
        }
    }
}

/// A map of the names and their texts, as a `BTreeMap` shows it.
impl fmt::Debug for NamedTexts {
    fn fmt<W: fmt::Write>(&self, f: &mut fmt::Formatter<W>) -> fmt::Result {
        let mut out = f.debug_map();
        for span in &self.spans {
            let (name, text) = named_text(&self.bytes, *span);
            out.entry(&name, &text);
        }
        out.finish()
    }
}

/// The name and the text that lie at a span.
pub fn named_text(bytes: &[u8], span: Span) -> (&str, &str)
    requires within { LiesWithin (length bytes.now) span }
    requires name { IsUtf8 (named_text bytes.now span).0 }
    requires text { IsUtf8 (named_text bytes.now span).1 }
    ensures { (result.0.now, result.1.now) ≡ named_text bytes.now span }
{
    let name = &bytes[span.name..span.text];
    let text = &bytes[span.text..span.end];
    unsafe {
        (
            std::str::from_utf8_unchecked(name),
            std::str::from_utf8_unchecked(text),
        )
    }
}

/// Appends a name and its text to the bytes.
pub fn keep(bytes: &mut Vec<u8>, name: &str, text: &str) -> Result<Span, NoMemory>
    ensures longer { (more : List ℕ) × (bytes.new.items ≡ bytes.old.items ++ more) }
    ensures ok { IfOk result (λ span. (bytes.new.items ≡ bytes.old.items ++ name.now ++ text.now)
        × (span.name ≡ length bytes.old.items) × (span.text ≡ length bytes.old.items + length name.now) × (span.end ≡ length bytes.new.items)) }
{
    let start = bytes.len();
    bytes.extend_from_slice(name.as_bytes())?;
    let middle = bytes.len();
    bytes.extend_from_slice(text.as_bytes())?;
    Ok(Span {
        name: start,
        text: middle,
        end: bytes.len(),
    })
}

fn compare(bytes: &[u8], span: Span, name: &[u8]) -> Ordering
    requires { LiesWithin (length bytes.now) span }
    ensures { result ≡ slice_cmp nat_cmp name.now (named_text bytes.now span).0 }
{
    name.cmp(&bytes[span.name..span.text])
}

// Most names come behind all that are there.
fn place_to_put(bytes: &[u8], spans: &[Span], name: &[u8]) -> Result<usize, usize>
    requires { AreNamedTexts bytes.now spans.now }
    ensures { IsPlaceOf (named_texts bytes.now spans.now) name.now result }
{
    let len = spans.len();
    if 0 < len {
        if let Ordering::Greater = compare(bytes, spans[len - 1], name) {
            return Err(len);
        }
    }
    place_of(bytes, spans, name)
}

fn place_of(bytes: &[u8], spans: &[Span], name: &[u8]) -> Result<usize, usize>
    requires { AreNamedTexts bytes.now spans.now }
    ensures { IsPlaceOf (named_texts bytes.now spans.now) name.now result }
{
    let mut low = 0;
    let mut high = spans.len();
    while low < high {
        let middle = low + (high - low) / 2;
        match compare(bytes, spans[middle], name) {
            Ordering::Less => high = middle,
            Ordering::Equal => return Ok(middle),
            Ordering::Greater => low = middle + 1,
        }
    }
    Err(low)
}
