//! The calls of a reader of blocks as tests make them. What they promise stays here: a test looks at the answers, so its own proof is short.

ghost use Rattle.std.specs.Prelude.{◌≤◌};

use mdblock::{BlockFault, Found, ItemReader, Reader, splice};
use mdtext::{Entities, Tally};
use std::alloc::{AllocError, Global};

/// How many containers may be open inside one another, where a test says nothing else.
pub(crate) const LIMIT: usize = 64;

/// A reader that has read nothing.
pub(crate) fn new_reader<'e>(alloc: Global, entities: &'e Entities, limit: usize) -> Reader<'e>
    requires some { 1 ≤ limit }
    requires few { limit ≤ 256 }
{
    Reader::new(alloc, entities, limit)
}

/// Reads a line. One that could not be counted, or is longer than any that a test has, is a fault.
pub(crate) fn read_line(
    reader: &mut Reader<'_>,
    text: &str,
    count: &mut Tally,
) -> Result<Option<Found>, BlockFault> {
    if reader.fed() == usize::MAX || text.len() > usize::MAX / 4 {
        return Err(BlockFault::Failed);
    }
    reader.line(text, count)
}

/// Whether a line is read, and no unit is handed out.
pub(crate) fn hands_nothing(reader: &mut Reader<'_>, text: &str, count: &mut Tally) -> bool {
    matches!(read_line(reader, text, count), Ok(None))
}

/// The fault of a line.
pub(crate) fn fault_of(
    reader: &mut Reader<'_>,
    text: &str,
    count: &mut Tally,
) -> Option<BlockFault> {
    read_line(reader, text, count).err()
}

pub(crate) fn finish(reader: Reader<'_>) -> Result<Option<Found>, BlockFault> {
    reader.finish()
}

/// Goes on inside a list from one of its later items, which begins with this line.
pub(crate) fn inside<'e, 'o>(
    alloc: Global,
    entities: &'e Entities,
    found: &'o Found,
    k: usize,
    text: &str,
    count: &mut Tally,
) -> Result<Option<ItemReader<'e, 'o>>, AllocError> {
    if text.len() > usize::MAX / 4 {
        return Ok(None);
    }
    ItemReader::inside(alloc, entities, LIMIT, found, k, text, count)
}

/// `read_line` for what reads inside a list.
pub(crate) fn read_line_inside(
    reader: &mut ItemReader<'_, '_>,
    text: &str,
    count: &mut Tally,
) -> Result<Option<Found>, BlockFault> {
    if reader.fed() == usize::MAX || text.len() > usize::MAX / 4 {
        return Err(BlockFault::Failed);
    }
    reader.line(text, count)
}

pub(crate) fn finish_inside(reader: ItemReader<'_, '_>) -> Result<Option<Found>, BlockFault> {
    reader.finish()
}

/// Joins what was read with the rest of an old list from one of its later items on, where the last line that was read begins such an item.
pub(crate) fn spliced(
    reader: Reader<'_>,
    found: &Found,
    k: usize,
) -> Result<Option<Found>, AllocError> {
    if !reader.joined() || reader.fed() > usize::MAX - found.lines() || k >= found.joins().len() {
        return Ok(None);
    }
    Ok(Some(splice(reader, found, k)?))
}
