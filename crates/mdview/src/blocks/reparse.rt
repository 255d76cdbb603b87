//! Reads the lines again that an edit may have changed the blocks of.

ghost use Rattle.std.specs.Prelude.{◌≡◌, ◌≤◌, ◌+◌, ◌<◌, ◌-◌, ◌++◌, ◌&&◌, ◌∷◌, ℕ, List, None, IfErr, IfOk, IfSome, OnErr, OnOk, [], drop, is_some, length, map, take, true};
ghost use Rattle.std.specs.Option.{option_to_list};
ghost use Rattle.mdtext.specs.EntityTable.{EntityTable, usual_table};
ghost use Rattle.blockspec.specs.BlockUnits.{begins};
ghost use Rattle.blockspec.specs.Nesting.{first_too_deep};
ghost use Rattle.blockspec.specs.Joins.{is_joined};
ghost use Rattle.mdsource.specs.Stops.{is_near, lines_to_stop};
ghost use Rattle.mdblock.specs.held.Following.{Follows, IsPast, fed_in};
ghost use Rattle.mdblock.specs.held.ReaderState.{held_joined};
ghost use Rattle.mdblock.specs.held.Reads.{handed, open_begin};
ghost use Rattle.mdsource.specs.Stretch.{is_meeting};
ghost use Rattle.mdsource.specs.UnitTiles.{IsAhead};
ghost use Rattle.mdview.specs.HeldBlocks.{HoldsUnits, IsDeepAt, IsReread, is_at, line_before, lines_in, old_lines, places_of};
ghost use Rattle.mdview.specs.HeldItems.{IsBaseOf, IsCounted, IsItemAt, IsItemOf, mark_in};
ghost use Rattle.mdview.specs.HeldUnit.{read_of};
ghost use Rattle.mdview.specs.KeptTexts.{IsKept};
ghost use Rattle.mdview.specs.StopLines.{IsReadToStop, stops_of};
ghost use Rattle.mdview.specs.UnitsFound.{IsHeldOn, trees_found};
ghost use Rattle.mdview.specs.UnitCursors.{GoesOn};
ghost use Rattle.mdblock.specs.CountedLines.{counted_by};
ghost use Rattle.mdsource.specs.SourceLimits.{size_of};
ghost use Rattle.mdview.specs.NewText.{lines_of};
ghost use Rattle.mdsource.specs.BlockFaults.{OfBlocks};

use crate::blocks::held_places::{HeldItem, Resume, UnitCursor, UnitStart, resume_at};
use crate::blocks::joined_lists::join_held;
use crate::held::HeldText;
use crate::held::units::HeldUnit;
use crate::source::new_text::NewText;
use mdblock::{Found, ItemReader, Seam};
use mdchunks::Chunks;
use mdsource::{EditFault, fault_in_line};
use mdtext::Count;
use std::alloc::AllocError;

/// Inline texts of a list that stay: those of the last unit found from number `at` on are those of the held unit with number `unit` from number `from` on.
#[derive(Clone, Copy)]
pub(crate) struct KeptTexts {
    pub(crate) unit: usize,
    pub(crate) from: usize,
    pub(crate) at: usize,
}

/// What an edit reads: from line `from` up to line `meet` there are the units `found`, and behind them `list`, which is not put together, in the place of those from number
/// `first` up to `next`. Where reading stopped inside a list, some texts of the last one are kept.
#[derive(Drop)]
pub(crate) struct Reparsed<'a> {
    pub(crate) first: usize,
    pub(crate) next: usize,
    pub(crate) from: usize,
    pub(crate) meet: usize,
    pub(crate) found: Vec<Found>,
    pub(crate) list: Option<Seam<'a>>,
    pub(crate) kept: Option<KeptTexts>,
}

impl<'a> Reparsed<'a> {
    /// The units found from where reading begins up to line `meet`, in the place of the held ones up to number `next`.
    fn up_to(resume: Resume, next: usize, meet: usize, found: Vec<Found>) -> Reparsed<'a>
        ensures { result ≡ record { first = resume.start.unit; next = next; from = resume.from; meet = meet; found = found; list = None; kept = None } }
    {
        Reparsed {
            first: resume.start.unit,
            next,
            from: resume.from,
            meet,
            found,
            list: None,
            kept: None,
        }
    }
}

/// Reads blocks from the last unit that begins above the edit up to where a unit begins behind it that is held, or a later item of a list is held that begins
/// there in both texts, or to the end. Each line that is read, or taken over in its place, is counted.
pub(crate) fn reparse<'a, C: Count>(
    held: &HeldText<'a>,
    text: NewText<'_>,
    count: &mut C,
) -> Result<Reparsed<'a>, EditFault>
    requires few { length (lines_of text) ≤ 1000000 }
    requires small { size_of (lines_of text) ≤ 16777216 }
    requires old { length (old_lines text) ≤ 1000000 }
    requires held { HoldsUnits held.now.entities.now (old_lines text) held.now.head (map read_of held.now.units.now.items) }
    requires fits { first_too_deep held.now.options.now.max_containers (old_lines text) ≡ None }
    ensures fault { IfErr result OfBlocks }
    ensures deep { IfErr result (IsDeepAt (first_too_deep held.now.options.now.max_containers (lines_of text.entry))) }
    ensures fits { OnOk result (first_too_deep held.now.options.now.max_containers (lines_of text.entry) ≡ None) }
    ensures read { IfOk result (IsReread held.now.entities.now text.entry) }
    ensures kept { IfOk result (λ reparsed. IfSome reparsed.kept (IsKept held.now.units.now.items (trees_found reparsed))) }
    ensures list { IfOk result (λ reparsed. IfSome reparsed.list (IsHeldOn held.now.units.now.items reparsed)) }
    ensures soon { IfOk result (IsReadToStop held.now.entities.now text.entry) }
    ensures stretch { C.lines count.new ≤ C.lines count.old + lines_to_stop (stops_of held.now.entities.now text.entry) }
    ensures order { IfOk result (λ reparsed. (reparsed.first ≤ reparsed.next) × (reparsed.next ≤ length held.now.units.now.items)) }
    ensures lines { C.lines count.new ≤ C.lines count.old + length (lines_of text.entry) }
    ensures inlines { C.inlines count.new ≡ C.inlines count.old }
{
    let resume = resume_at(held.units, held.head, text.at());
    let from = resume.from;
    let mut cursor = UnitCursor::at(held.units, resume.start);
    let mut found = Vec::new(held.alloc);
    let mut reader = begun_reader(held, text, from, resume.start, count)?;
    let begun = from + reader.fed();
    let mut ahead = text.lines_from(begun);
    for line in begun..text.len() {
        match reader.line(text.line(line, &mut ahead), count) {
            Ok(unit) => push_some(&mut found, unit)?,
            Err(fault) => return Err(fault_in_line(fault, line)),
        }
        if let Some(next) = met_at(&reader, &mut cursor, text, from, line) {
            return Ok(Reparsed::up_to(resume, next, line, found));
        }
        if let Some(item) = joined_at(&reader, &mut cursor, text, line) {
            return join_held(reader, item, resume, line, found);
        }
    }
    // Behind the last line no container begins any more.
    match reader.finish() {
        Ok(unit) => push_some(&mut found, unit)?,
        Err(_) => return Err(EditFault::NoMemory),
    }
    Ok(Reparsed::up_to(resume, held.units.len(), text.len(), found))
}

/// A reader that begins in line `from`. Where the unit `start` begins there, is a list and has a later item above the edit, it stands for the lines up to the last
/// such item, which it takes over, and it has read that item's first line. Each of them is counted.
fn begun_reader<'a, C: Count>(
    held: &HeldText<'a>,
    text: NewText<'_>,
    from: usize,
    start: UnitStart,
    count: &mut C,
) -> Result<ItemReader<'a, 'a>, AllocError>
    requires few { length (lines_of text) ≤ 1000000 }
    requires small { size_of (lines_of text) ≤ 16777216 }
    requires old { length (old_lines text) ≤ 1000000 }
    requires held { HoldsUnits held.now.entities.now (old_lines text) held.now.head (map read_of held.now.units.now.items) }
    requires fits { first_too_deep held.now.options.now.max_containers (old_lines text) ≡ None }
    requires from { from ≤ text.at }
    requires counted { IsCounted held.now.head held.now.units.now.items start }
    ensures above { IfOk result (λ reader. from + fed_in reader ≤ text.entry.at) }
    ensures reads { IfOk result (λ reader.
        Follows held.now.options.now.max_containers held.now.entities.now reader (drop from (take (from + fed_in reader) (lines_of text.entry)))) }
    ensures none { IfOk result (λ reader. handed held.now.entities.now (drop from (take (from + fed_in reader) (lines_of text.entry))) ≡ []) }
    ensures base { IfOk result (λ reader. IsBaseOf held.now.units.now.items start.unit reader.base) }
    ensures lines { IfOk result (λ reader. C.lines count.new ≡ counted_by (fed_in reader) (C.lines count.old)) }
    ensures no_more { OnErr result (C.lines count.new ≤ C.lines count.old + (text.entry.at - from)) }
    ensures inlines { C.inlines count.new ≡ C.inlines count.old }
{
    let limit = held.options.max_containers;
    let Some(item) = item_above(held.units, text, from, start) else {
        return Ok(ItemReader::new(held.alloc, held.entities, limit));
    };
    let list = item.unit.found();
    let number = from + list.joins()[item.item].line;
    let mut ahead = text.lines_from(number);
    let line = text.line(number, &mut ahead);
    let begun = ItemReader::inside(
        held.alloc,
        held.entities,
        limit,
        list,
        item.item,
        line,
        count,
    )?;
    // Above the edit the line begins that item as it did.
    Ok(begun.unwrap())
}

/// Where the unit `start` begins in line `from` and is a list, the last of its later items above the edit.
fn item_above<'a>(
    units: &'a Chunks<HeldUnit>,
    text: NewText<'_>,
    from: usize,
    start: UnitStart,
) -> Option<HeldItem<'a>>
    ensures item { IfSome result (IsItemOf units.now.items) }
    ensures begins { IfSome result (λ item. (item.number ≡ start.unit) × (start.line ≡ from)) }
    ensures above { IfSome result (λ item. from + (mark_in item).line < text.entry.at) }
{
    // In front of the first unit reading begins with the text.
    if start.line != from {
        return None;
    }
    let unit = units.get(start.unit)?;
    let item = unit.item_above(text.at().checked_sub(from)?)?;
    Some(HeldItem {
        unit,
        number: start.unit,
        item,
    })
}

fn push_some(found: &mut Vec<Found>, unit: Option<Found>) -> Result<(), AllocError>
    ensures { OnOk result (found.new.items ≡ found.old.items ++ option_to_list unit) }
{
    if let Some(unit) = unit {
        found.push(unit)?;
    }
    Ok(())
}

/// Whether the line of this number, the last that was read, begins a unit.
fn begins_at(reader: &ItemReader<'_, '_>, line: usize) -> bool
    ensures { (limit : ℕ) (e : EntityTable) (ls : List (List ℕ)) → Follows limit e reader.now ls → result ≡ is_at line (open_begin e ls) }
{
    match reader.open_at() {
        Some(begin) => begin == line,
        None => false,
    }
}

/// The unit that is held and begins in this line, the last that was read, if the line begins a unit of the new text too and stands behind the edit.
fn met_at(
    reader: &ItemReader<'_, '_>,
    cursor: &mut UnitCursor<'_>,
    text: NewText<'_>,
    from: usize,
    line: usize,
) -> Option<usize>
    requires order { from ≤ line }
    requires old { length (old_lines text) ≤ 1000000 }
    requires new { line ≤ 1000000 }
    ensures on { GoesOn cursor.old cursor.new }
    ensures unit { IfSome result (λ unit. (unit ≡ cursor.new.next.unit) × (unit < length cursor.new.units.now.items)) }
    ensures ahead { (e : EntityTable) → let p = places_of e text.entry in
        IsAhead (map lines_in cursor.old.units.now.items) p.old_begins cursor.old.next.unit cursor.old.next.line (line_before p line)
        → IsAhead (map lines_in cursor.old.units.now.items) p.old_begins cursor.new.next.unit cursor.new.next.line (line_before p line) }
    ensures met { (limit : ℕ) (e : EntityTable) (ls : List (List ℕ)) → Follows limit e reader.now ls → let p = places_of e text.entry in
        IsAhead (map lines_in cursor.old.units.now.items) p.old_begins cursor.old.next.unit cursor.old.next.line (line_before p line)
        → is_some result ≡ (is_at (line - from) (open_begin e ls) && is_meeting p line) }
    ensures here { is_some result ≡ true → cursor.new.next.line ≡ line_before (places_of (usual_table []) text.entry) line }
{
    if begins_at(reader, line - from) {
        held_at(cursor, text, line)
    } else {
        None
    }
}

/// The later item of a held list that begins in this line, the last that was read, if the line begins a later item of a list of the new text too and stands
/// behind the edit.
fn joined_at<'a>(
    reader: &ItemReader<'_, '_>,
    cursor: &mut UnitCursor<'a>,
    text: NewText<'_>,
    line: usize,
) -> Option<HeldItem<'a>>
    requires past { IsPast reader.now }
    requires old { length (old_lines text) ≤ 1000000 }
    requires new { line ≤ 1000000 }
    ensures on { GoesOn cursor.old cursor.new }
    ensures ahead { (e : EntityTable) → let p = places_of e text.entry in
        IsAhead (map lines_in cursor.old.units.now.items) p.old_begins cursor.old.next.unit cursor.old.next.line (line_before p line)
        → IsAhead (map lines_in cursor.old.units.now.items) p.old_begins cursor.new.next.unit cursor.new.next.line (line_before p line) }
    ensures item { IfSome result (IsItemOf cursor.new.units.now.items) }
    ensures joined { is_some result ≡ true → held_joined reader.now.reading.held ≡ true }
    ensures told { (limit : ℕ) (e : EntityTable) (ls : List (List ℕ)) (head : ℕ) → Follows limit e reader.now ls → let p = places_of e text.entry in
        HoldsUnits e (old_lines text.entry) head (map read_of cursor.old.units.now.items) → line < length (lines_of text.entry)
        → IsAhead (map lines_in cursor.old.units.now.items) p.old_begins cursor.old.next.unit cursor.old.next.line (line_before p line)
        → IsCounted head cursor.old.units.now.items cursor.old.next
        → (is_some result ≡ (is_joined e ls && is_near (stops_of e text.entry) line)) × IfSome result (IsItemAt p.old_begins (line_before p line)) }
{
    if reader.joined() {
        cursor.item_at(text.old_line(line)?)
    } else {
        None
    }
}

/// The unit that is held and begins in this line, if that stands behind the edit.
fn held_at(cursor: &mut UnitCursor<'_>, text: NewText<'_>, line: usize) -> Option<usize>
    requires old { length (old_lines text) ≤ 1000000 }
    requires new { line ≤ 1000000 }
    ensures on { GoesOn cursor.old cursor.new }
    ensures unit { IfSome result (λ unit. (unit ≡ cursor.new.next.unit) × (unit < length cursor.new.units.now.items)) }
    ensures ahead { (e : EntityTable) → let p = places_of e text.entry in
        IsAhead (map lines_in cursor.old.units.now.items) p.old_begins cursor.old.next.unit cursor.old.next.line (line_before p line)
        → IsAhead (map lines_in cursor.old.units.now.items) p.old_begins cursor.new.next.unit cursor.new.next.line (line_before p line)
        × (is_some result ≡ is_meeting p line) }
    ensures here { is_some result ≡ true → cursor.new.next.line ≡ line_before (places_of (usual_table []) text.entry) line }
{
    cursor.unit_at(text.old_line(line)?)
}
