//! Members that come: into a chunk that has room for them, or into new chunks.

ghost use Rattle.std.specs.Prelude.{◌≡◌, ◌≤◌, ◌<◌, ◌+◌, ◌*◌, ◌/◌, ℕ, [], get_or, length, take};
ghost use Rattle.std.specs.List.{All};
ghost use Rattle.std.specs.Vec.{vec_len, vec_capacity};
ghost use Rattle.mdchunks.specs.Lists.{IsFilled, joined, replaced};
ghost use Rattle.mdchunks.specs.Sequences.{needed};

use crate::chunk::{Chunk, FULL};
use crate::moves::{rotate_from, splice};
use crate::places::{Place, locate};
use crate::weights::Weighed;

/// Puts members at a place. The chunks that this may need lie in `spare`.
pub(crate) fn insert<T: Weighed + Drop>(
    chunks: &mut Vec<Chunk<T>>,
    spare: &mut Vec<Chunk<T>>,
    at: usize,
    added: Vec<T>,
)
    requires within { at ≤ length (joined chunks.old.items) }
    requires filled { All IsFilled chunks.old.items }
    requires spare { needed (vec_len added) ≤ vec_len spare.old }
    requires room { vec_len chunks.old + needed (vec_len added) ≤ vec_capacity chunks.old }
    requires space { vec_len added + 64 ≤ vec_capacity added }
    ensures members { joined chunks.new.items ≡ replaced (joined chunks.old.items) at 0 added.items }
    ensures filled { All IsFilled chunks.new.items }
{
    if added.is_empty() {
        return;
    }
    let most = added.len() / FULL + 2;
    spare.truncate(most);
    if chunks.is_empty() {
        pack(spare, added);
        splice(chunks, 0, 0, spare);
        return;
    }
    let place = locate(chunks, at);
    if added.len() <= FULL - chunks[place.chunk].len() {
        chunks[place.chunk].splice(place.inside, 0, added);
        return;
    }
    spread(chunks, spare, place, added);
}

/// Puts members into new chunks, with those of the chunk at their place.
fn spread<T: Weighed + Drop>(
    chunks: &mut Vec<Chunk<T>>,
    spare: &mut Vec<Chunk<T>>,
    place: Place,
    added: Vec<T>,
)
    requires within { place.chunk < length chunks.old.items }
    requires inside { place.inside ≤ length (get_or chunks.old.items place.chunk []) }
    requires filled { All IsFilled chunks.old.items }
    requires spare { vec_len spare.old ≡ needed (vec_len added) }
    requires room { vec_len chunks.old + vec_len spare.old ≤ vec_capacity chunks.old }
    requires space { vec_len added + 64 ≤ vec_capacity added }
    ensures members { joined chunks.new.items
        ≡ replaced (joined chunks.old.items) (length (joined (take place.chunk chunks.old.items)) + place.inside) 0 added.items }
    ensures filled { All IsFilled chunks.new.items }
{
    let all = gather(&mut chunks[place.chunk], place.inside, added);
    pack(spare, all);
    splice(chunks, place.chunk, 1, spare);
}

/// The members of a chunk with others put at a place. The chunk has none then.
fn gather<T: Weighed + Drop>(chunk: &mut Chunk<T>, at: usize, added: Vec<T>) -> Vec<T>
    requires within { at ≤ length chunk.old }
    requires space { vec_len added + 64 ≤ vec_capacity added }
    ensures members { result.items ≡ replaced chunk.old at 0 added.items }
    ensures few { vec_len result ≤ vec_len added + 64 }
{
    let count = added.len();
    let behind = chunk.len() - at;
    let mut all = added;
    chunk.pour(&mut all);
    // the members of the chunk, and then the others between them
    rotate_from(&mut all, 0, count);
    rotate_from(&mut all, at, behind);
    all
}

/// Puts all members into chunks, and drops the chunks that are left.
fn pack<T: Weighed + Drop>(spare: &mut Vec<Chunk<T>>, all: Vec<T>)
    requires two { 2 ≤ vec_len spare.old }
    requires room { vec_len all ≤ 64 * vec_len spare.old }
    ensures members { joined spare.new.items ≡ all.items }
    ensures filled { All IsFilled spare.new.items }
    ensures fewer { vec_len spare.new ≤ vec_len spare.old }
{
    let size = chunk_size(all.len());
    let mut rest = all.into_iter();
    let mut used = 0;
    while rest.len() > 0 {
        spare[used].fill(&mut rest, size);
        used += 1;
    }
    spare.truncate(used);
}

/// How many members each chunk takes: two chunks have as many each.
fn chunk_size(count: usize) -> usize
    ensures some { 0 < result }
    ensures full { result ≤ 64 }
    ensures enough { (n : ℕ) → 2 ≤ n → count ≤ 64 * n → count ≤ result * n }
{
    if count > FULL && count <= 2 * FULL {
        (count + 1) / 2
    } else {
        FULL
    }
}
