//! The calls of the readers and of the writer as tests make them. What they promise stays here: a test looks at the answers, so its own proof is short.

ghost use Rattle.std.specs.Prelude.{IfSome, length};
ghost use Rattle.mdblock.specs.BlockView.{blocks_view};
ghost use Rattle.mdblock.specs.Positions.{BlocksIn};

use crate::blocks::calls::read_line;
use mdblock::{Block, BlockFault, Found, Reader, Unit};
use mdhtml::{Options, unit_html};
use mdinline::{LabelTable, Parsed, read};
use mdtext::{Entities, Tally};
use std::alloc::Global;
use std::test::Fail;

/// The first unit that the lines of a text hand out.
fn first_unit(reader: &mut Reader<'_>, text: &str) -> Result<Option<Found>, BlockFault> {
    let mut count = Tally::new();
    for line in text.lines() {
        if let Some(found) = read_line(reader, line, &mut count)? {
            return Ok(Some(found));
        }
    }
    Ok(None)
}

fn first_or_last(mut reader: Reader<'_>, text: &str) -> Result<Option<Found>, BlockFault> {
    match first_unit(&mut reader, text)? {
        Some(found) => Ok(Some(found)),
        None => reader.finish(),
    }
}

/// The first unit of a text.
pub(crate) fn found(alloc: Global, text: &str) -> Result<Found, Fail> {
    let entities = Entities::builtin(alloc)?;
    Ok(first_or_last(Reader::new(alloc, &entities, 64), text)?.ok_or("no unit")?)
}

fn push_readings(
    alloc: Global,
    of: &[String],
    labels: &LabelTable,
    entities: &Entities,
    texts: &mut Vec<Parsed>,
) -> Result<(), Fail> {
    let mut tally = Tally::new();
    for s in of {
        texts.push(read(alloc, s, labels, entities, 64, &mut tally)?)?;
    }
    Ok(())
}

/// The readings of texts.
pub(crate) fn readings(alloc: Global, of: &[String]) -> Result<Vec<Parsed>, Fail> {
    let labels = LabelTable::new(alloc);
    let entities = Entities::builtin(alloc)?;
    let mut texts = Vec::new(alloc);
    push_readings(alloc, of, &labels, &entities, &mut texts)?;
    Ok(texts)
}

/// The blocks of a unit, where it has so many texts.
pub(crate) fn blocks_of<'a>(unit: &'a Unit, texts: &[Parsed]) -> Option<&'a [Block]>
    ensures { IfSome result (λ blocks. BlocksIn (length texts.now) (blocks_view blocks.now)) }
{
    if unit.texts().len() != texts.len() {
        return None;
    }
    Some(unit.blocks())
}

fn html_in(alloc: Global, unit: &Unit, options: &Options) -> Result<String, Fail> {
    let texts = readings(alloc, unit.texts())?;
    match blocks_of(unit, &texts) {
        Some(blocks) => Ok(unit_html(alloc, blocks, &texts, options)?),
        None => Err(Fail::from("other texts")),
    }
}

/// The HTML of the first unit of a text.
pub(crate) fn html_of(alloc: Global, text: &str, options: &Options) -> Result<String, Fail> {
    let found = found(alloc, text)?;
    html_in(alloc, found.unit(), options)
}
