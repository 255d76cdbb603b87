//! Lists that go on in held ones behind what was read.

ghost use Rattle.std.specs.Prelude.{◌≡◌, ◌≤◌, ◌+◌, ◌<◌, ◌-◌, ◌^◌, ◌++◌, ◌∷◌, [], IfErr, IfOk, IfSome, length, min, true};
ghost use Rattle.mdblock.specs.FoundLists.{FoundList};
ghost use Rattle.mdblock.specs.Insets.{MayFit};
ghost use Rattle.mdblock.specs.Seams.{IsOwnBase, seam_front, seam_list};
ghost use Rattle.mdblock.specs.held.Following.{fed_in};
ghost use Rattle.mdblock.specs.held.ReaderState.{held_joined};
ghost use Rattle.mdview.specs.HeldItems.{IsSpliced, KeepsTexts, kept_of, mark_in};
ghost use Rattle.mdview.specs.HeldLists.{IsBaseIn, list_in, unplaced};
ghost use Rattle.mdview.specs.UnitsFound.{CanStay, IsSeamOf, found_in, kept_behind, with_list};
ghost use Rattle.mdsource.specs.declared.fault.EditFault.TheVariants.{NoMemory};

use crate::blocks::held_places::{HeldItem, Resume};
use crate::blocks::reparse::{KeptTexts, Reparsed};
use mdblock::{Found, ItemReader, Seam};
use mdsource::EditFault;
use std::alloc::AllocError;

/// A list that goes on in one that is held: what was read up to `line`, the last that was read, which begins that item, and the held list's items from there on.
pub(crate) fn join_held<'a>(
    reader: ItemReader<'_, 'a>,
    item: HeldItem<'a>,
    resume: Resume,
    line: usize,
    mut found: Vec<Found>,
) -> Result<Reparsed<'a>, EditFault>
    requires joined { held_joined reader.reading.held ≡ true }
    requires item { item.item < length item.unit.now.read.items }
    requires fits { fed_in reader + (item.unit.now.read.lines - (mark_in item).line - 1) ≤ usize.MAX }
    requires base { item.number ≡ resume.start.unit → IsBaseIn item.unit.now reader.base }
    ensures fault { IfErr result (λ fault. fault ≡ NoMemory) }
    ensures place { IfOk result (λ r. (r.first ≡ resume.start.unit) × (r.from ≡ resume.from) × (r.next ≡ min (item.entry.number + 1) (2 ^ 64 - 1))
        × (r.meet ≡ min (line + (item.entry.unit.now.read.lines - (mark_in item.entry).line)) (2 ^ 64 - 1))) }
    ensures list { IfOk result (λ r. (list : FoundList) × (found_in r ≡ found.items ++ list ∷ [])
        × IsSpliced reader.entry (list_in item.entry.unit.now) item.entry.item list × KeepsTexts reader.entry item.entry list r.kept) }
    ensures seam { IfOk result (λ r. IfSome r.list (IsSeamOf reader.entry item.entry r.kept)) }
{
    let old = item.unit.found();
    let join = old.joins()[item.item];
    let seam = reader.seam(old, item.item)?;
    let is_own = item.number == resume.start.unit;
    let (list, kept) = push_joined(seam, item, is_own, join.texts, &mut found)?;
    Ok(Reparsed {
        first: resume.start.unit,
        next: item.number.saturating_add(1),
        from: resume.from,
        meet: line.saturating_add(old.lines().saturating_sub(join.line)),
        found,
        list,
        kept: Some(kept),
    })
}

/// Puts a list that goes on in one that is held behind the units found. It is put together, but where the held list's items can stay where they are: then it is handed
/// back. Tells which of its texts stay; so many stand in front of the item in the held list. Where reading began in the held list, that is the seam's base.
fn push_joined<'a>(
    seam: Seam<'a>,
    item: HeldItem<'_>,
    is_own: bool,
    from: usize,
    found: &mut Vec<Found>,
) -> Result<(Option<Seam<'a>>, KeptTexts), AllocError>
    requires old { unplaced seam.old ≡ list_in item.unit.now }
    requires join { seam.join ≡ item.item }
    requires from { from ≡ (mark_in item).texts }
    requires base { is_own ≡ true → IsBaseIn item.unit.now seam.base }
    ensures list { IfOk result (λ r. with_list found.new.items r.0 ≡ found.old.items ++ seam_list seam.entry ∷ []) }
    ensures seam { IfOk result (λ r. IfSome r.0 (λ s. (s ≡ seam.entry) × CanStay s × (r.1 ≡ kept_behind item.entry.number s))) }
    ensures kept { IfOk result (λ r. MayFit (seam_front seam.entry) seam.entry.old seam.entry.join → r.1 ≡ kept_of item.entry (seam_list seam.entry)) }
{
    let old = item.unit.unit().texts().len();
    if can_stay(&seam, item, is_own) {
        let kept = KeptTexts {
            unit: item.number,
            from,
            at: from,
        };
        return Ok((Some(seam), kept));
    }
    let list = seam.made()?;
    let kept = KeptTexts {
        unit: item.number,
        from,
        at: list
            .unit()
            .texts()
            .len()
            .saturating_sub(old.saturating_sub(from)),
    };
    found.push(list)?;
    Ok((None, kept))
}

/// Whether the items of a held list from the join on can stay where they are.
fn can_stay(seam: &Seam<'_>, item: HeldItem<'_>, is_own: bool) -> bool
    requires old { unplaced seam.now.old ≡ list_in item.unit.now }
    requires join { seam.now.join ≡ item.item }
    requires base { is_own ≡ true → IsBaseIn item.unit.now seam.now.base }
    ensures { result ≡ true → CanStay seam.now }
{
    item.unit.unit().definitions().is_empty()
        && is_based(seam, item, is_own)
        && seam.is_even()
        && seam.is_alike()
}

/// Whether what stays in front, if there is anything, are items of the held list itself that stand before the join.
fn is_based(seam: &Seam<'_>, item: HeldItem<'_>, is_own: bool) -> bool
    requires old { unplaced seam.now.old ≡ list_in item.unit.now }
    requires join { seam.now.join ≡ item.item }
    requires base { is_own ≡ true → IsBaseIn item.unit.now seam.now.base }
    ensures { result ≡ true → IsOwnBase seam.now.base seam.now.old seam.now.join }
{
    let staying = seam.items_staying();
    if staying == 0 {
        return true;
    }
    is_own && staying <= item.item
}
