//! Members that go, and chunks that are joined.

ghost use Rattle.std.specs.Prelude.{◌≡◌, ◌≤◌, ◌<◌, ◌+◌, ◌++◌, false, length, take, drop};
ghost use Rattle.std.specs.List.{All};
ghost use Rattle.std.specs.Vec.{vec_len, vec_capacity};
ghost use Rattle.mdchunks.specs.Lists.{IsFilled, joined};

use crate::chunk::Chunk;
use crate::places::locate;
use crate::weights::Weighed;

/// Two chunks that meet are joined where they have no more members together.
const SMALL: usize = 48;

/// Drops members. No chunk is left empty.
pub(crate) fn remove<T: Weighed + Drop>(chunks: &mut Vec<Chunk<T>>, at: usize, removed: usize)
    requires within { at + removed ≤ length (joined chunks.old.items) }
    requires filled { All IsFilled chunks.old.items }
    ensures members { joined chunks.new.items ≡ take at (joined chunks.old.items) ++ drop (at + removed) (joined chunks.old.items) }
    ensures filled { All IsFilled chunks.new.items }
    ensures fewer { vec_len chunks.new ≤ vec_len chunks.old }
    ensures capacity { vec_capacity chunks.new ≡ vec_capacity chunks.old }
{
    if remove_members(chunks, at, removed) {
        drop_empty(chunks);
    }
}

/// Drops members from their chunks, and says whether a chunk is empty then.
fn remove_members<T: Weighed + Drop>(chunks: &mut [Chunk<T>], at: usize, removed: usize) -> bool
    requires within { at + removed ≤ length (joined chunks.old) }
    ensures members { joined chunks.new ≡ take at (joined chunks.old) ++ drop (at + removed) (joined chunks.old) }
    ensures filled { result ≡ false → All IsFilled chunks.old → All IsFilled chunks.new }
{
    let mut emptied = false;
    let mut at = at;
    let mut left = removed;
    for chunk in chunks.iter_mut() {
        if left == 0 {
            return emptied;
        }
        let len = chunk.len();
        let from = at.min(len);
        let gone = left.min(len - from);
        chunk.remove(from, gone);
        if gone == len {
            emptied = true;
        }
        at -= from;
        left -= gone;
    }
    emptied
}

/// Drops the empty chunks.
fn drop_empty<T: Weighed + Drop>(chunks: &mut Vec<Chunk<T>>)
    ensures members { joined chunks.new.items ≡ joined chunks.old.items }
    ensures filled { All IsFilled chunks.new.items }
    ensures fewer { vec_len chunks.new ≤ vec_len chunks.old }
    ensures capacity { vec_capacity chunks.new ≡ vec_capacity chunks.old }
{
    chunks.retain(|chunk| chunk.len() > 0);
}

/// Joins the chunks at a place where they are small.
pub(crate) fn heal<T: Weighed + Drop>(chunks: &mut Vec<Chunk<T>>, at: usize)
    requires within { at ≤ length (joined chunks.old.items) }
    requires filled { All IsFilled chunks.old.items }
    ensures members { joined chunks.new.items ≡ joined chunks.old.items }
    ensures filled { All IsFilled chunks.new.items }
    ensures fewer { vec_len chunks.new ≤ vec_len chunks.old }
    ensures capacity { vec_capacity chunks.new ≡ vec_capacity chunks.old }
{
    let place = locate(chunks, at);
    join(chunks, place.chunk);
    if place.chunk > 0 {
        join(chunks, place.chunk - 1);
    }
}

/// Joins a chunk with the next one where both are small.
fn join<T: Weighed + Drop>(chunks: &mut Vec<Chunk<T>>, i: usize)
    requires filled { All IsFilled chunks.old.items }
    ensures members { joined chunks.new.items ≡ joined chunks.old.items }
    ensures filled { All IsFilled chunks.new.items }
    ensures fewer { vec_len chunks.new ≤ vec_len chunks.old }
    ensures capacity { vec_capacity chunks.new ≡ vec_capacity chunks.old }
{
    let count = chunks.len();
    if count < 2 || i >= count - 1 {
        return;
    }
    if chunks[i].len() + chunks[i + 1].len() <= SMALL {
        let next = chunks.remove(i + 1);
        chunks[i].append(next);
    }
}
