//! Link labels, and what they lead to.
ghost use Rattle.std.specs.Prelude.{◌≡◌, ◌+◌, ◌*◌, ◌<◌, ◌≤◌, ◌++◌, ◌∷◌, [], false, true, None, Some, IfOk, OnOk, chars, fold, length, nat_eq, nat_le, not, slice_index};
ghost use Rattle.std.specs.Prelude.{refl, string_bytes, if◌then◌else◌};
ghost use Rattle.std.specs.Cmp.{partial_equiv_from_equiv};
ghost use Rattle.std.specs.Cmp.Lexicographic.{pointwise, nat_list_eq_equiv, nat_list_cmp_total, slice_cmp, texts_po, texts_ties};
ghost use Rattle.std.specs.List.{list_any};
ghost use Rattle.std.specs.Ordering.{nat_cmp};
ghost use Rattle.mdtext.specs.LabelFronts.{IsFrontOf};
ghost use Rattle.mdtext.specs.TidyLabels.{fits, is_tidy, is_word_byte};
ghost use Rattle.mdtext.specs.Labels.{add_word, collapsed, folded, space_between, has_bare_bracket, is_label, is_label_space, label_of, words};

use crate::NoMemory;
use crate::byte_class::Class;
use crate::character_references::byte_at;
use crate::plain_runs::split_at_special;
use caseless::default_case_fold_str;
use std::alloc::Global;
use std::cmp::Ordering;
use std::marker::Model;
use std::{fmt, mem};

/// A link label as labels are matched (CommonMark 4.7): after Unicode case folding, without spaces, tabs and line
/// endings at its ends, and with one space for each run of them inside. Labels are ordered by this text's bytes.
#[derive(Drop)]
pub struct Label {
    folded: String,
    /// Its first bytes as a number. Most labels are told apart by it, without a look at the text, which lies elsewhere.
    front: u64,
}

impl Model for Label {
    ghost use Rattle.std.specs.Prelude.{List, ℕ, string_bytes};
    ghost use Rattle.mdtext.specs.LabelFronts.{IsFrontOf};

    ghost Value = { List ℕ };

    ghost view = { λ label. string_bytes label.folded };

    ghost invariant = { λ label. IsFrontOf (string_bytes label.folded) label.front };
}

impl fmt::Debug for Label {
    fn fmt<W: fmt::Write>(&self, f: &mut fmt::Formatter<W>) -> fmt::Result {
        f.debug_struct("Label")
            .field("folded", &self.folded)
            .finish()
    }
}

impl Label {
    /// Room for a label. Takes no memory.
    pub fn new(alloc: Global) -> Label
        ensures { result ≡ [] }
    {
        Label {
            folded: String::new(alloc),
            front: 0,
        }
    }

    /// Makes the value the label that stands in brackets, by what stands between them (CommonMark 4.7), and answers whether that is a label, as
    /// [`fold_label`] does. If it is none, or after `NoMemory`, the value is of no use.
    pub fn fold(&mut self, alloc: Global, inside: &str) -> Result<bool, NoMemory>
        ensures { IfOk result (λ is_label. label_of inside.now ≡ (if is_label then Some self.new else None)) }
    {
        let front = mem::replace(&mut self.front, 0);
        let mut folded = mem::replace(&mut self.folded, String::new(alloc));
        let found = collapse(inside, &mut folded)?;
        if !found {
            self.folded = folded;
            self.front = front;
            return Ok(false);
        }
        fold_case(alloc, &mut folded)?;
        self.front = front_of(&folded);
        self.folded = folded;
        Ok(true)
    }

    /// The text by which labels are matched.
    pub fn as_str(&self) -> &str
        ensures { result.now ≡ self.now }
    {
        self.folded.as_str()
    }

    /// An equal label. Refused for want of memory alone.
    pub fn copy(&self, alloc: Global) -> Result<Label, NoMemory>
        ensures { IfOk result (λ label. label ≡ self.now) }
    {
        Ok(Label {
            folded: String::from_str(alloc, &self.folded)?,
            front: self.front,
        })
    }
}

impl PartialEq for Label {
    ghost eq = { λ a b. pointwise nat_eq a b };

    ghost laws = { partial_equiv_from_equiv nat_list_eq_equiv };

    fn eq(&self, other: &Self) -> bool {
        self.as_str() == other.as_str()
    }
}

impl Eq for Label {
    ghost laws = { nat_list_eq_equiv };
}

impl PartialOrd for Label {
    ghost partial_cmp = { λ a b. Some (slice_cmp nat_cmp a b) };

    ghost laws = { texts_po };

    fn partial_cmp(&self, other: &Self) -> Option<Ordering> {
        Some(self.cmp(other))
    }
}

impl Ord for Label {
    ghost cmp = { λ a b. slice_cmp nat_cmp a b };

    ghost total = { nat_list_cmp_total };

    ghost matches_partial_cmp = { λ a b. refl };

    ghost matches_eq = { λ a b. texts_ties a b };

    fn cmp(&self, other: &Self) -> Ordering {
        match self.front.cmp(&other.front) {
            Ordering::Equal => self.as_str().cmp(other.as_str()),
            order => order,
        }
    }
}

/// What a link leads to: its destination and its title, both after backslash escapes and references are replaced. A
/// missing title is the empty one.
#[derive(Debug, Drop, PartialEq, Eq)]
pub struct Target {
    /// The destination.
    pub url: String,
    /// The title.
    pub title: String,
}

impl Target {
    /// An equal target. Refused for want of memory alone.
    pub fn copy(&self, alloc: Global) -> Result<Target, NoMemory>
        ensures url { IfOk result (λ target. string_bytes target.url ≡ string_bytes self.now.url) }
        ensures title { IfOk result (λ target. string_bytes target.title ≡ string_bytes self.now.title) }
    {
        Ok(Target {
            url: String::from_str(alloc, &self.url)?,
            title: String::from_str(alloc, &self.title)?,
        })
    }
}

/// The label that stands in brackets, from what stands between them (CommonMark 4.7).
///
/// `None` where it has no character but spaces, tabs and line endings, more than 999 characters, or a bracket that no
/// backslash escapes. Escapes and references stay as they are written. Refused for want of memory alone.
pub fn fold_label(alloc: Global, inside: &str) -> Result<Option<Label>, NoMemory>
    ensures { IfOk result (λ label. label ≡ label_of inside.now) }
{
    let mut label = Label::new(alloc);
    if label.fold(alloc, inside)? {
        Ok(Some(label))
    } else {
        Ok(None)
    }
}

// The first eight bytes of a text as one number; zeros stand behind a shorter text.
fn front_of(text: &str) -> u64
    ensures { IsFrontOf text.now result }
{
    let high = four_bytes(text, 0);
    let low = four_bytes(text, 4);
    high * 4_294_967_296 + low
}

fn four_bytes(text: &str, at: usize) -> u64
    requires { at ≤ 4 }
    ensures value { result ≡ slice_index text.now at * 16777216 + slice_index text.now (at + 1) * 65536
        + slice_index text.now (at + 2) * 256 + slice_index text.now (at + 3) }
    ensures bytes { (slice_index text.now at < 256) × (slice_index text.now (at + 1) < 256)
        × (slice_index text.now (at + 2) < 256) × (slice_index text.now (at + 3) < 256) }
{
    let first = u64::from(byte_at(text, at));
    let second = u64::from(byte_at(text, at + 1));
    let third = u64::from(byte_at(text, at + 2));
    let fourth = u64::from(byte_at(text, at + 3));
    first * 16_777_216 + second * 65_536 + third * 256 + fourth
}

// Makes the text the words of a label, with a space between them, and answers whether it is one: if not, the text stays. Most labels are their own words.
fn collapse(inside: &str, text: &mut String) -> Result<bool, NoMemory>
    ensures label { IfOk result (λ found. found ≡ is_label inside.now) }
    ensures words { IfOk result (λ found. found ≡ true → string_bytes text.new ≡ collapsed inside.now) }
    ensures left { IfOk result (λ found. found ≡ false → text.new ≡ text.old) }
{
    if is_tidy(inside) {
        text.clear();
        text.push_str(inside)?;
        return Ok(true);
    }
    if !is_label(inside) {
        return Ok(false);
    }
    text.clear();
    append_collapsed(inside, text)?;
    Ok(true)
}

fn is_tidy(inside: &str) -> bool
    ensures { result ≡ is_tidy inside.now }
{
    if 999 < inside.len() {
        return false;
    }
    let mut before = b' ';
    for byte in inside.as_bytes() {
        if !fits(before, *byte) {
            return false;
        }
        before = *byte;
    }
    before != b' '
}

#[inline(always)]
fn fits(before: u8, byte: u8) -> bool
    ensures { result ≡ fits before byte }
{
    is_word_byte(byte) || (byte == b' ' && before != b' ')
}

#[inline(always)]
fn is_word_byte(byte: u8) -> bool
    ensures { result ≡ is_word_byte byte }
{
    32 < byte && !(91 <= byte && byte <= 93)
}

// A bracket is looked for first, since the search ends there: texts in many brackets are read from each to the next one alone.
fn is_label(inside: &str) -> bool
    ensures { result ≡ is_label inside.now }
{
    if has_bare_bracket(inside) {
        return false;
    }
    is_short(inside) && has_text(inside)
}

fn is_short(inside: &str) -> bool
    ensures { result ≡ nat_le (length (chars inside.now)) 999 }
{
    inside.chars().count() <= 999
}

fn has_text(inside: &str) -> bool
    ensures { result ≡ list_any (λ b. not (is_label_space b)) inside.now }
{
    inside.as_bytes().iter().any(|byte| !is_label_space(*byte))
}

fn is_label_space(byte: u8) -> bool
    ensures { result ≡ is_label_space byte }
{
    matches!(byte, b' ' | b'\t' | b'\n' | b'\r')
}

// Appends the words of a label, with a space between them.
fn append_collapsed(inside: &str, text: &mut String) -> Result<(), NoMemory>
    ensures { OnOk result (string_bytes text.new ≡ fold add_word (string_bytes text.old) (words inside.now)) }
{
    let spaces = Class::of(b" \t\n\r");
    let mut rest = inside;
    loop {
        let (word, space) = split_at_special(rest, &spaces);
        push_word(word, text)?;
        let Some((_, after)) = space else {
            return Ok(());
        };
        rest = after;
    }
}

// Most labels are ASCII, and are folded in place.
fn fold_case(alloc: Global, text: &mut String) -> Result<(), NoMemory>
    ensures { OnOk result (string_bytes text.new ≡ folded (string_bytes text.old)) }
{
    if text.is_ascii() {
        text.make_ascii_lowercase();
        return Ok(());
    }
    let folded = default_case_fold_str(alloc, text.as_str())?;
    text.clear();
    text.push_str(&folded)
}

// An empty word is none.
fn push_word(word: &str, text: &mut String) -> Result<(), NoMemory>
    requires { list_any is_label_space word.now ≡ false }
    ensures { OnOk result (string_bytes text.new ≡ fold add_word (string_bytes text.old) (words word.now)) }
{
    if word.is_empty() {
        return Ok(());
    }
    text.push_str(space_between(text.as_str()))?;
    text.push_str(word)?;
    Ok(())
}

fn space_between(text: &str) -> &'static str
    ensures { result.now ≡ space_between text.now }
{
    if text.is_empty() { "" } else { " " }
}

fn has_bare_bracket(text: &str) -> bool
    ensures { result ≡ has_bare_bracket text.now }
{
    let mut is_escaped = false;
    for byte in text.as_bytes() {
        if is_escaped {
            is_escaped = false;
        } else if *byte == b'\\' {
            is_escaped = true;
        } else if *byte == b'[' || *byte == b']' {
            return true;
        }
    }
    false
}
