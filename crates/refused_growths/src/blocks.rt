//! The reader of blocks.

use crate::reports::{say_failed, say_refused};
use mdblock::{BlockFault, Found, Reader};
use mdtext::{Entities, Tally};
use std::alloc::{AllocError, Global};

/// A text with a block of each kind but HTML.
const TEXT: &str = "# a

> - b
>   1. c
>
> [d]: /e 'f'

g
===
| h | i |
| - | - |
| j |

```k
l
```
***
    m
";

/// How a text was read.
#[derive(Drop)]
enum Reading {
    /// To its end: what is said of its units.
    Whole(String),
    /// To a refused growth, and whether the reader then was as it must be.
    Refused(bool),
}

/// Reads the text, and once more where a growth was refused.
pub fn try_blocks(alloc: Global, said: &mut String) -> Result<(), AllocError> {
    let entities = Entities::builtin(alloc)?;
    let mut reading = read_text(alloc, &entities)?;
    if let Reading::Refused(as_before) = reading {
        say_refused(said, as_before)?;
        reading = read_text(alloc, &entities)?;
    }
    match reading {
        Reading::Whole(units) => said.push_str(&units),
        Reading::Refused(_) => say_failed(said, "Reader"),
    }
}

fn read_text(alloc: Global, entities: &Entities) -> Result<Reading, AllocError> {
    let mut units = String::new(alloc);
    let mut reader = Reader::new(alloc, entities, 64);
    for line in TEXT.lines() {
        if reader.fed() == usize::MAX || line.len() > usize::MAX / 4 {
            return Ok(Reading::Refused(false));
        }
        let fed = reader.fed();
        match reader.line(line, &mut Tally::new()) {
            Ok(found) => say_found(&mut units, found)?,
            Err(BlockFault::NoMemory) => return Ok(Reading::Refused(stays_failed(reader, fed))),
            Err(_) => return Ok(Reading::Refused(false)),
        }
    }
    match reader.finish() {
        Ok(found) => {
            say_found(&mut units, found)?;
            Ok(Reading::Whole(units))
        }
        Err(fault) => Ok(Reading::Refused(fault == BlockFault::NoMemory)),
    }
}

/// Whether a reader that met a fault counts the lines before it alone, and answers nothing any more.
fn stays_failed(reader: Reader, fed: usize) -> bool {
    let mut reader = reader;
    if reader.fed() != fed || fed == usize::MAX || reader.open_at().is_some() {
        return false;
    }
    let failed = matches!(reader.line("a", &mut Tally::new()), Err(BlockFault::Failed));
    failed && matches!(reader.finish(), Err(BlockFault::Failed))
}

/// Says where a unit begins and ends, and what its inline texts and definitions are.
fn say_found(units: &mut String, found: Option<Found>) -> Result<(), AllocError> {
    let Some(found) = found else {
        return Ok(());
    };
    write!(
        units,
        "Reader: line {}, {} lines",
        found.begin(),
        found.lines()
    )?;
    for text in found.unit().texts() {
        write!(units, ", '{text}'")?;
    }
    for definition in found.unit().definitions() {
        let target = &definition.target;
        write!(
            units,
            ", [{}] to {} as {}",
            definition.label.as_str(),
            target.url,
            target.title
        )?;
    }
    units.push_str("\n")
}
