//! Puts what an edit made in the place of what is held. None of it takes memory.

ghost use Rattle.std.specs.Prelude.{◌≡◌, ℕ, [], List, ◌+◌, ◌-◌, ◌≤◌, IfSome, length, map, slice_get};
ghost use Rattle.std.specs.List.{All};
ghost use Rattle.std.specs.Vec.{vec_len, vec_capacity};
ghost use Rattle.mdchunks.specs.Sequences.{HasRoom as HasChunks};
ghost use Rattle.mdview.specs.Lists.{replaced};
ghost use Rattle.mdview.specs.HeldUnit.{unit_in};
ghost use Rattle.mdview.specs.LabelTargets.{HasRoom, led_after, target_held};
ghost use Rattle.mdview.specs.UnitInsets.{FitsUnit, put_in};
ghost use Rattle.mdview.specs.Update.{Fits, IsApart, IsInLast, all_renewed, end_gone, inset_put, map_at, renewed, units_brought};

use crate::held::labels::HeldLabels;
use crate::held::unit_insets::UnitInset;
use crate::held::units::HeldUnit;
use crate::inlines::concerned_texts::Again;
use crate::update::Update;
use mdchunks::Chunks;

/// Puts what an edit made in the place of what is held. The room was reserved before.
pub(crate) fn commit(held: &mut Chunks<HeldUnit>, labels: &mut HeldLabels, update: Update)
    requires order { update.first ≤ update.next }
    requires within { update.next ≤ length held.old.items }
    requires fits { All (Fits (map unit_in held.old.items)) update.again.items }
    requires inset { IsInLast held.old.items update.first update.next update.inset }
    requires apart { IsApart update.again.items update.inset }
    requires room { HasChunks held.old (vec_len update.units) }
    requires space { vec_len update.units + 64 ≤ vec_capacity update.units }
    requires labels { HasRoom labels.old update.changes }
    ensures led { (label : List ℕ) → target_held labels.new label ≡ led_after labels.old update.changes label }
    ensures units { held.new.items ≡ replaced (all_renewed held.old.items update.again.items) update.first (update.next - update.first) (units_brought held.old.items update) }
{
    let Update {
        first,
        next,
        units,
        inset,
        again,
        changes,
        ..
    } = update;
    renew_units(held, again);
    let end = put_inset(held, next, inset);
    held.splice(first, end - first, units);
    changes.commit(labels);
}

/// Puts what a new prelude made in the place of what is held: no unit comes or goes.
pub(crate) fn commit_readings(held: &mut Chunks<HeldUnit>, labels: &mut HeldLabels, update: Update)
    requires none { (update.first ≡ 0) × (update.next ≡ 0) × (units_brought held.old.items update ≡ []) }
    requires fits { All (Fits (map unit_in held.old.items)) update.again.items }
    requires labels { HasRoom labels.old update.changes }
    ensures led { (label : List ℕ) → target_held labels.new label ≡ led_after labels.old update.changes label }
    ensures units { held.new.items ≡ replaced (all_renewed held.old.items update.again.items) update.first (update.next - update.first) (units_brought held.old.items update) }
{
    let Update { again, changes, .. } = update;
    renew_units(held, again);
    changes.commit(labels);
}

/// Puts readings and pieces in the place of those that are held.
fn renew_units(units: &mut Chunks<HeldUnit>, again: Vec<Again>)
    requires { All (Fits (map unit_in units.old.items)) again.items }
    ensures value { units.new.items ≡ all_renewed units.old.items again.items }
    ensures room { (length units.new.items ≡ length units.old.items) × (units.new.room ≡ units.old.room) }
{
    for one in again {
        renew_unit(units, one);
    }
}

fn renew_unit(units: &mut Chunks<HeldUnit>, again: Again)
    requires { Fits (map unit_in units.old.items) again }
    ensures value { units.new.items ≡ map_at (renewed again) again.unit units.old.items }
    ensures room { (length units.new.items ≡ length units.old.items) × (units.new.room ≡ units.old.room) }
{
    let number = again.unit;
    if number < units.len() {
        units.change(number, again);
    }
}

/// Lets the unit before number `next` take an inset in, if there is one, and tells where the units end that give way.
fn put_inset(units: &mut Chunks<HeldUnit>, next: usize, inset: Option<UnitInset>) -> usize
    requires { IfSome inset (λ i. IfSome (slice_get units.old.items i.unit) (FitsUnit i)) }
    ensures value { units.new.items ≡ inset_put units.old.items inset }
    ensures end { result ≡ end_gone next inset }
    ensures room { (length units.new.items ≡ length units.old.items) × (units.new.room ≡ units.old.room) }
{
    match inset {
        None => next,
        Some(inset) => {
            let number = inset.unit;
            put_unit(units, inset);
            number
        }
    }
}

fn put_unit(units: &mut Chunks<HeldUnit>, inset: UnitInset)
    requires { IfSome (slice_get units.old.items inset.unit) (FitsUnit inset) }
    ensures value { units.new.items ≡ map_at (put_in inset) inset.unit units.old.items }
    ensures room { (length units.new.items ≡ length units.old.items) × (units.new.room ≡ units.old.room) }
{
    let number = inset.unit;
    if number < units.len() {
        units.change(number, inset);
    }
}
