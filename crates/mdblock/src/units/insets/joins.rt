//! Joins put where those of an old list lie, in the place of some of them.

ghost use Rattle.std.specs.Prelude.{◌≡◌, ◌+◌, ◌≤◌, ◌<◌, ◌++◌, IfSome, Some, length, map, take, drop};
ghost use Rattle.mdblock.specs.FoundLists.{join_mark};
ghost use Rattle.mdblock.specs.Insets.{marks_in_front};
ghost use Rattle.mdblock.specs.Spliced.{mark_at, mark_further, no_mark};

use super::swap_between;
use crate::splicing::{join_at, moved, no_join};
use crate::units::Join;

/// Puts joins of what was read in the place of those up to one, from those on that stay, and moves those behind it, which stood behind `from`.
pub(super) fn put_joins(
    joins: &mut Vec<Join>,
    part: Vec<Join>,
    stay: Option<usize>,
    join: usize,
    from: Join,
)
    requires there { IfSome stay (λ k. k < length joins.old.items) }
    requires within { join < length joins.old.items }
    requires room { length (marks_in_front stay (map join_mark joins.old.items) (map join_mark part.items)) ≡ join + 1 }
    ensures { let front = marks_in_front stay (map join_mark joins.old.items) (map join_mark part.items) in
        map join_mark joins.new.items ≡ front ++ map (mark_further (join_mark from) (mark_at front join)) (drop (join + 1) (map join_mark joins.old.items)) }
{
    put_front_joins(joins, part, stay);
    let to = join_at(joins, join);
    move_later_joins(joins, join + 1, from, to);
}

/// Puts joins of what was read in the place of as many, from those on that stay.
fn put_front_joins(joins: &mut Vec<Join>, part: Vec<Join>, stay: Option<usize>)
    requires there { IfSome stay (λ k. k < length joins.old.items) }
    requires room { length (marks_in_front stay (map join_mark joins.old.items) (map join_mark part.items)) ≤ length joins.old.items }
    ensures { let front = marks_in_front stay (map join_mark joins.old.items) (map join_mark part.items) in
        map join_mark joins.new.items ≡ front ++ drop (length front) (map join_mark joins.old.items) }
{
    match stay {
        None => put_first_joins(joins, part),
        Some(k) => put_later_joins(joins, part, k),
    }
}

/// Puts joins in the place of as many first ones.
fn put_first_joins(joins: &mut Vec<Join>, part: Vec<Join>)
    requires { length part.items ≤ length joins.old.items }
    ensures { joins.new.items ≡ part.items ++ drop (length part.items) joins.old.items }
{
    let mut part = part;
    let count = part.len();
    swap_between(joins, 0, count, &mut part);
}

/// Puts joins that were read behind join `k` in the place of as many behind it.
fn put_later_joins(joins: &mut Vec<Join>, part: Vec<Join>, k: usize)
    requires there { k < length joins.old.items }
    requires room { k + 1 + length part.items ≤ length joins.old.items }
    ensures { let front = marks_in_front (Some k) (map join_mark joins.old.items) (map join_mark part.items) in
        map join_mark joins.new.items ≡ front ++ drop (length front) (map join_mark joins.old.items) }
{
    let base = join_at(joins, k);
    let mut part = moved_joins(part, base);
    let end = k + 1 + part.len();
    swap_between(joins, k + 1, end, &mut part);
}

/// Joins that were read behind one that stands behind others.
fn moved_joins(joins: Vec<Join>, base: Join) -> Vec<Join>
    ensures { map join_mark result.items ≡ map (mark_further no_mark (join_mark base)) (map join_mark joins.items) }
{
    let mut moved = joins;
    move_joins(&mut moved, no_join(), base);
    moved
}

/// Moves all but so many first joins, which stood behind `from` and stand behind `to` then.
fn move_later_joins(joins: &mut Vec<Join>, start: usize, from: Join, to: Join)
    requires { start ≤ length joins.old.items }
    ensures { map join_mark joins.new.items
        ≡ map join_mark (take start joins.old.items) ++ map (mark_further (join_mark from) (join_mark to)) (map join_mark (drop start joins.old.items)) }
{
    move_joins(&mut joins[start..], from, to);
}

/// Moves joins that stood behind `from` and stand behind `to` then.
fn move_joins(joins: &mut [Join], from: Join, to: Join)
    ensures { map join_mark joins.new ≡ map (mark_further (join_mark from) (join_mark to)) (map join_mark joins.old) }
{
    for i in 0..joins.len() {
        joins[i] = moved(joins[i], from, to);
    }
}
