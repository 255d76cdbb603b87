//! Marks of labels: a unit without the mark of a label does not name it.

ghost use Rattle.std.specs.Prelude.{◌≡◌, ◌<◌, ℕ, List, false, is_some, map, option_copied};
ghost use Rattle.std.specs.Int.RustNames.{bit_and};
ghost use Rattle.std.specs.Option.{option_to_list};
ghost use Rattle.mdleaf.specs.DefinedLinks.{definition_of};
ghost use Rattle.mdview.specs.LabelMarks.{label_mark, marks_after, marks_asked, place_from, unit_marks};
ghost use Rattle.mdview.specs.LabelTargets.{at};
ghost use Rattle.mdview.specs.ToldLabels.{labels_in};

use mdblock::{Definition, Unit};
use mdinline::{Asked, Parsed};
use mdtext::{Label, Target};
use std::alloc::Global;
use std::collections::BTreeMap;

/// The mark of a label: one of 61 bits.
fn mark_of(label: &Label) -> u64
    ensures { result ≡ label_mark label.now }
{
    1u64 << place_of(label.as_str().as_bytes())
}

/// Which bit it is. A prime number of them, so that each byte tells.
fn place_of(bytes: &[u8]) -> u32
    ensures value { result ≡ place_from 0 bytes.now }
    ensures below { result < 61 }
{
    let mut place: u32 = 0;
    for byte in bytes {
        place = (place * 7 + u32::from(*byte)) % 61;
    }
    place
}

/// The marks of the labels that a unit defines or a text of it asked for.
pub(crate) fn marks_in(unit: &Unit, inlines: &[Parsed]) -> u64
    ensures { result ≡ unit_marks unit.now inlines.now }
{
    let mut marks = mark_definitions(unit.definitions());
    for parsed in inlines {
        marks = mark_asked(marks, parsed.asked());
    }
    marks
}

fn mark_definitions(definitions: &[Definition]) -> u64
    ensures { result ≡ marks_after 0 (labels_in (map definition_of definitions.now)) }
{
    let mut marks: u64 = 0;
    for definition in definitions {
        marks = marks | mark_of(&definition.label);
    }
    marks
}

fn mark_asked(marks: u64, asked: &Asked) -> u64
    ensures { result ≡ marks_after marks asked.now }
{
    let mut marks = marks;
    for i in 0..asked.len() {
        marks = mark_some(marks, asked.get(i));
    }
    marks
}

fn mark_some(marks: u64, label: Option<&Label>) -> u64
    ensures { result ≡ marks_after marks (option_to_list (option_copied label.entry)) }
{
    match label {
        Some(label) => marks | mark_of(label),
        None => marks,
    }
}

/// The marks of the labels of a map.
pub(crate) fn marks_of_keys(targets: &BTreeMap<Label, Option<Target>, Global>) -> u64
    ensures { (label : List ℕ) → bit_and (label_mark label) result ≡ 0 → is_some (at label targets.now.entries) ≡ false }
{
    let mut marks: u64 = 0;
    for label in targets.keys() {
        marks = marks | mark_of(label);
    }
    marks
}
