//! What an edit or a new prelude changes, made before anything of the preview is.

ghost use Rattle.std.specs.Prelude.{◌≡◌, ℕ, List, ◌≤◌, ◌<◌, ◌+◌, ◌^◌, ◌++◌, [], IfErr, IfOk, IfSome, None, OnOk, drop, if◌then◌else◌, length, map, nat_eq, option_copied, sum_by, take};
ghost use Rattle.std.specs.List.{All};
ghost use Rattle.blockspec.specs.Nesting.{first_too_deep};
ghost use Rattle.mdblock.specs.FoundLists.{found_unit};
ghost use Rattle.mdsource.specs.LabelTable.{table};
ghost use Rattle.mdsource.specs.Refusals.{nesting_refusal};
ghost use Rattle.mdsource.specs.SoonTexts.{texts_of_read, units_read};
ghost use Rattle.mdsource.specs.Stops.{lines_to_stop};
ghost use Rattle.mdsource.specs.UnitTexts.{asking_texts, asking_units, deep_from};
ghost use Rattle.mdsource.specs.UnitTiles.{front_of};
ghost use Rattle.mdview.specs.HeldBlocks.{HoldsUnits, IsReplacing, old_lines, held_tile, lines_in};
ghost use Rattle.mdview.specs.HeldLists.{list_in, unplaced};
ghost use Rattle.mdsource.specs.SourceLimits.{size_of};
ghost use Rattle.mdview.specs.NewText.{lines_of};
ghost use Rattle.mdview.specs.ReadUnits.{IsReadUnder};
ghost use Rattle.mdview.specs.HeldTexts.{IsRefusedBy, IsReread, asking_in_parts, deep_in_parts, head_read, number_again, setting_in, source_before, source_behind, texts_in_parts};
ghost use Rattle.mdsource.specs.TextFaults.{IsTextFault};
ghost use Rattle.mdview.specs.LabelTargets.{IsElsewhere, LeadsAfter, led_after, led_by, target_held};
ghost use Rattle.mdview.specs.HeldUnit.{IsRendered, unit_in, read_of, texts_before, texts_of};
ghost use Rattle.mdview.specs.KeptTexts.{IsKept};
ghost use Rattle.mdview.specs.StopLines.{stops_of};
ghost use Rattle.mdview.specs.UnitsFound.{IsHeldOn, found_in, trees_found, with_list};
ghost use Rattle.mdview.specs.Update.{IsFitFor, IsPatchOf, count_brought, number_after, units_brought};

use crate::blocks::reparse::{Reparsed, reparse};
use crate::held::HeldText;
use crate::held::unit_insets::UnitInset;
use crate::held::units::HeldUnit;
use crate::inlines::UnitTextReader;
use crate::inlines::concerned_texts::Again;
use crate::labels::changes::{LabelChanges, LabelsAfter};
use crate::patch::Patch;
use crate::pieces::text_room::TextRoom;
use crate::source::new_text::NewText;
use mdblock::{Found, Seam};
use mdsource::{EditFault, Prelude};
use mdtext::Count;
use std::alloc::{AllocError, Global};

/// What an edit brings: `units` take the place of those from number `first` up to `next`, and `head` lines stand before the
/// first unit then. Where there is an inset, the last of those stays and takes it in, behind `units`. The units of `again` are held and read again; they are
/// numbered as before the edit.
#[derive(Drop)]
pub(crate) struct Update {
    pub(crate) first: usize,
    pub(crate) next: usize,
    pub(crate) head: usize,
    pub(crate) units: Vec<HeldUnit>,
    pub(crate) inset: Option<UnitInset>,
    pub(crate) again: Vec<Again>,
    pub(crate) changes: LabelChanges,
}

impl Update {
    /// What an edit brings that leaves this text. Each line and each inline text that is read is counted. Where several units
    /// have a text that is too deep, the first of the text is named.
    pub(crate) fn of<C: Count>(
        held: &HeldText<'_>,
        text: NewText<'_>,
        count: &mut C,
    ) -> Result<Update, EditFault>
        requires few { length (lines_of text) ≤ 1000000 }
        requires small { size_of (lines_of text) ≤ 16777216 }
        requires old { length (old_lines text) ≤ 1000000 }
        requires held { HoldsUnits held.now.entities.now (old_lines text) held.now.head (map read_of held.now.units.now.items) }
        requires fits { first_too_deep held.now.options.now.max_containers (old_lines text) ≡ None }
        requires read { All (IsReadUnder held.now.entities.now (target_held held.now.labels.now)) held.now.units.now.items }
        requires rendered { All (IsRendered held.now.options.now) held.now.units.now.items }
        ensures refused { IfErr result (IsRefusedBy (nesting_refusal (setting_in held.now) (source_behind held.now text.entry))) }
        ensures accepted { OnOk result (nesting_refusal (setting_in held.now) (source_behind held.now text.entry) ≡ None) }
        ensures fits { OnOk result (first_too_deep held.now.options.now.max_containers (lines_of text.entry) ≡ None) }
        ensures replacing { IfOk result (IsReplacing held.now.entities.now held.now.units.now.items text.entry) }
        ensures led { IfOk result (λ r. (label : List ℕ) → led_after held.now.labels.now r.changes label ≡ table held.now.entities.now (source_behind held.now text.entry) label) }
        ensures read { IfOk result (λ r. All (IsReadUnder held.now.entities.now (table held.now.entities.now (source_behind held.now text.entry))) (units_brought held.now.units.now.items r)) }
        ensures reread { IfOk result (λ r. All (IsReread held.now.entities.now (table held.now.entities.now (source_behind held.now text.entry)) (map unit_in held.now.units.now.items)) r.again.items) }
        ensures numbers { IfOk result (λ r. map number_again r.again.items ≡ asking_in_parts held.now.entities.now
            (table held.now.entities.now (source_before held.now text.entry)) (table held.now.entities.now (source_behind held.now text.entry)) held.now.units.now.items r.first r.next) }
        ensures stretch { C.lines count.new ≤ C.lines count.old + lines_to_stop (stops_of held.now.entities.now text.entry) }
        ensures texts { C.inlines count.new ≤ C.inlines count.old
            + texts_of_read (setting_in held.now) (source_before held.now text.entry) (source_behind held.now text.entry)
            (units_read held.now.entities.now (lines_of text.entry) (stops_of held.now.entities.now text.entry)) }
        ensures fit { IfOk result (IsFitFor held.now.options.now held.now.units.now.items) }
        ensures lines { C.lines count.new ≤ C.lines count.old + length (lines_of text.entry) }
    {
        let reparsed = reparse(held, text, count)?;
        let changes = LabelChanges::of(held, &reparsed)?;
        Update::behind(held, reparsed, changes, count)
    }

    /// What a new prelude brings: no unit comes or goes. Each inline text that is read is counted. Where several units have a
    /// text that is too deep, the first of the text is named.
    #[tactic(auto, unfolding(crate::specs::UnitsFound::found_in))]
    pub(crate) fn of_prelude<C: Count>(
        held: &HeldText<'_>,
        prelude: &Prelude,
        count: &mut C,
    ) -> Result<Update, EditFault>
        requires read { All (IsReadUnder held.now.entities.now (target_held held.now.labels.now)) held.now.units.now.items }
        requires rendered { All (IsRendered held.now.options.now) held.now.units.now.items }
        requires near { held.now.head + sum_by lines_in held.now.units.now.items < 2 ^ 64 }
        ensures none { IfOk result (λ r. (r.first ≡ 0) × (r.next ≡ 0) × (units_brought held.now.units.now.items r ≡ [])) }
        ensures led { IfOk result (λ r. LeadsAfter held.now.labels.now (map unit_in held.now.units.now.items) prelude.now r.changes) }
        ensures reread { IfOk result (λ r. All (IsReread held.now.entities.now (led_by (map unit_in held.now.units.now.items) prelude.now) (map unit_in held.now.units.now.items)) r.again.items) }
        ensures numbers { IfOk result (λ r. map number_again r.again.items
            ≡ asking_units held.now.entities.now (target_held held.now.labels.now) (led_by (map unit_in held.now.units.now.items) prelude.now) 0 (map unit_in held.now.units.now.items)) }
        ensures shallow { OnOk result (deep_from held.now.options.now.max_spans held.now.entities.now (led_by (map unit_in held.now.units.now.items) prelude.now) held.now.head
            (map held_tile held.now.units.now.items) ≡ None) }
        ensures deep { IfErr result (IsTextFault (deep_from held.now.options.now.max_spans held.now.entities.now (led_by (map unit_in held.now.units.now.items) prelude.now) held.now.head
            (map held_tile held.now.units.now.items))) }
        ensures texts { C.inlines count.new ≤ C.inlines count.old
            + asking_texts held.now.entities.now (target_held held.now.labels.now) (led_by (map unit_in held.now.units.now.items) prelude.now) (map unit_in held.now.units.now.items) }
        ensures fit { IfOk result (IsFitFor held.now.options.now held.now.units.now.items) }
        ensures lines { C.lines count.new ≡ C.lines count.old }
    {
        let changes = LabelChanges::of_prelude(held, prelude)?;
        let unread = Reparsed {
            first: 0,
            next: 0,
            from: 0,
            meet: held.head,
            found: Vec::new(held.alloc),
            list: None,
            kept: None,
        };
        Update::behind(held, unread, changes, count)
    }

    /// What comes where labels lead elsewhere so: the units that were found, and the texts that asked for such a label read
    /// again.
    fn behind<C: Count>(
        held: &HeldText<'_>,
        reparsed: Reparsed<'_>,
        changes: LabelChanges,
        count: &mut C,
    ) -> Result<Update, EditFault>
        requires first { reparsed.first ≤ reparsed.next }
        requires next { reparsed.next ≤ length held.now.units.now.items }
        requires elsewhere { IsElsewhere held.now.labels.now changes }
        requires read { All (IsReadUnder held.now.entities.now (target_held held.now.labels.now)) held.now.units.now.items }
        requires near { head_read held.now.head reparsed + sum_by lines_in held.now.units.now.items < 2 ^ 64 }
        requires far { reparsed.meet + sum_by lines_in held.now.units.now.items < 2 ^ 64 }
        requires rendered { All (IsRendered held.now.options.now) held.now.units.now.items }
        requires kept { IfSome reparsed.kept (IsKept held.now.units.now.items (trees_found reparsed)) }
        requires list { IfSome reparsed.list (IsHeldOn held.now.units.now.items reparsed) }
        ensures fit { IfOk result (IsFitFor held.now.options.now held.now.units.now.items) }
        ensures place { IfOk result (λ r. (r.first ≡ reparsed.entry.first) × (r.next ≡ reparsed.entry.next)) }
        ensures units { IfOk result (λ r. length (units_brought held.now.units.now.items r) ≡ length (found_in reparsed.entry)) }
        ensures lists { IfOk result (λ r. map list_in (units_brought held.now.units.now.items r) ≡ map unplaced (found_in reparsed.entry)) }
        ensures head { IfOk result (λ r. r.head ≡ head_read held.now.head reparsed.entry) }
        ensures changes { IfOk result (λ r. r.changes ≡ changes) }
        ensures read { IfOk result (λ r. All (IsReadUnder held.now.entities.now (led_after held.now.labels.now changes)) (units_brought held.now.units.now.items r)) }
        ensures numbers { IfOk result (λ r. map number_again r.again.items
            ≡ asking_in_parts held.now.entities.now (target_held held.now.labels.now) (led_after held.now.labels.now changes) held.now.units.now.items reparsed.entry.first reparsed.entry.next) }
        ensures reread { IfOk result (λ r. All (IsReread held.now.entities.now (led_after held.now.labels.now changes) (map unit_in held.now.units.now.items)) r.again.items) }
        ensures shallow { OnOk result (deep_in_parts held.now.options.now.max_spans held.now.entities.now (led_after held.now.labels.now changes)
            (head_read held.now.head reparsed.entry) held.now.units.now.items reparsed.entry ≡ None) }
        ensures deep { IfErr result (IsTextFault (deep_in_parts held.now.options.now.max_spans held.now.entities.now (led_after held.now.labels.now changes)
            (head_read held.now.head reparsed.entry) held.now.units.now.items reparsed.entry)) }
        ensures inlines { C.inlines count.new ≤ C.inlines count.old
            + texts_in_parts held.now.entities.now (target_held held.now.labels.now) (led_after held.now.labels.now changes) held.now.units.now.items reparsed.entry }
        ensures lines { C.lines count.new ≡ C.lines count.old }
    {
        let labels = LabelsAfter {
            held: held.labels,
            changes: &changes,
        };
        let reader = UnitTextReader {
            alloc: held.alloc,
            options: held.options,
            labels: &labels,
        };
        let mut room = TextRoom::new(held.alloc, held.entities);
        let head = head_behind(held.head, &reparsed);
        let first = reparsed.first;
        let next = reparsed.next;
        let meet = reparsed.meet;
        let mut again = Vec::new(held.alloc);
        reader.read_again(held.units, 0, first, head, &mut room, &mut again, count)?;
        let brought = reader.read_reparsed(reparsed, held.units, &mut room, count)?;
        reader.read_again(
            held.units,
            next,
            held.units.len(),
            meet,
            &mut room,
            &mut again,
            count,
        )?;
        drop(room);
        Ok(Update {
            first,
            next,
            head,
            units: brought.units,
            inset: brought.inset,
            again,
            changes,
        })
    }

    /// The patch that the edit answers.
    pub(crate) fn patch(&self, alloc: Global) -> Result<Patch, AllocError>
        requires { self.now.first ≤ self.now.next }
        ensures { IfOk result (IsPatchOf self.now) }
    {
        let added = self.count_brought();
        let mut again = Vec::with_capacity(alloc, self.again.len())?;
        for one in &self.again {
            again.push(self.number_after(one.unit))?;
        }
        Ok(Patch {
            first: self.first,
            removed: self.next - self.first,
            added,
            again,
        })
    }

    /// The number that a unit which stays has after the edit.
    fn number_after(&self, unit: usize) -> usize
        ensures { result ≡ number_after self.now unit }
    {
        if unit < self.next {
            return unit;
        }
        (unit - self.next)
            .saturating_add(self.first)
            .saturating_add(self.count_brought())
    }

    /// How many units come.
    #[tactic(auto, unfolding(crate::specs::Update::count_brought))]
    fn count_brought(&self) -> usize
        ensures { result ≡ count_brought self.now }
    {
        match &self.inset {
            None => self.units.len(),
            Some(_) => self.units.len() + 1,
        }
    }
}

/// How many lines stand before the first unit then; where reading does not begin with the first line, as many as are held.
#[tactic(auto, unfolding(crate::specs::UnitsFound::found_in))]
fn head_behind(held: usize, reparsed: &Reparsed<'_>) -> usize
    ensures { result ≡ head_read held reparsed.now }
{
    if reparsed.from == 0 {
        head_of(&reparsed.found, reparsed.list.as_ref(), reparsed.meet)
    } else {
        held
    }
}

/// How many lines stand before the first unit of a text of which these were found from its front up to line `meet`.
fn head_of(found: &[Found], list: Option<&Seam<'_>>, meet: usize) -> usize
    ensures { result ≡ front_of meet (map found_unit (with_list found.now (option_copied list.entry))) }
{
    if let Some(one) = found.first() {
        return one.begin();
    }
    match list {
        Some(list) => list.begin(),
        None => meet,
    }
}
