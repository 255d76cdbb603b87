//! Members that come in the place of others.

ghost use Rattle.std.specs.Prelude.{◌≡◌, ◌≤◌, ◌<◌, ◌+◌, ◌^◌, length, take};
ghost use Rattle.std.specs.List.{All};
ghost use Rattle.std.specs.Vec.{vec_len, vec_capacity};
ghost use Rattle.mdchunks.specs.Lists.{IsFilled, joined, replaced};
ghost use Rattle.mdchunks.specs.Sequences.{needed};

use crate::chunk::{Chunk, FULL};
use crate::packing::insert;
use crate::places::{FRONT, Near, locate_edit};
use crate::removals::{heal, remove};
use crate::weights::Weighed;

/// A chunk that would have fewer members is looked at with its neighbours.
const FEW: usize = 16;

/// Puts members in the place of others. The chunks that this may need lie in `spare`. The place is looked for from a chunk on. The
/// answer is the chunk in which members were exchanged, or the first one.
pub(crate) fn splice<T: Weighed + Drop>(
    chunks: &mut Vec<Chunk<T>>,
    spare: &mut Vec<Chunk<T>>,
    near: Near,
    at: usize,
    removed: usize,
    added: Vec<T>,
) -> Near
    requires within { at + removed ≤ length (joined chunks.old.items) }
    requires few { length (joined chunks.old.items) < 2 ^ 64 }
    requires filled { All IsFilled chunks.old.items }
    requires near { length (joined (take near.chunk chunks.old.items)) ≡ near.front }
    requires spare { needed (vec_len added) ≤ vec_len spare.old }
    requires room { vec_len chunks.old + needed (vec_len added) ≤ vec_capacity chunks.old }
    requires space { vec_len added + 64 ≤ vec_capacity added }
    ensures members { joined chunks.new.items ≡ replaced (joined chunks.old.items) at removed added.items }
    ensures filled { All IsFilled chunks.new.items }
    ensures near { length (joined (take result.chunk chunks.new.items)) ≡ result.front }
{
    if chunks.is_empty() {
        insert(chunks, spare, at, added);
        return FRONT;
    }
    let place = locate_edit(chunks, near, at, removed);
    let len = chunks[place.chunk].len();
    if removed <= len - place.inside
        && added.len() <= FULL - (len - removed)
        && len - removed + added.len() >= FEW
    {
        chunks[place.chunk].splice(place.inside, removed, added);
        return Near {
            chunk: place.chunk,
            front: at - place.inside,
        };
    }
    remove(chunks, at, removed);
    insert(chunks, spare, at, added);
    heal(chunks, at);
    FRONT
}
