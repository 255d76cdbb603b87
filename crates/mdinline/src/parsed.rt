//! What a text reads as.

ghost use Rattle.std.specs.Prelude.{◌≡◌, IfOk};
ghost use Rattle.mdinline.specs.TreeView.{inlines_view};
ghost use Rattle.mdinline.specs.held.HeldReadings.{row_view};

use crate::asked::Asked;
use crate::inlines::Inline;
use crate::rows::Row;
use mdtext::NoMemory;
use std::alloc::Global;
use std::fmt;
use std::marker::Model;
use std::sync::Arc;

/// What a text with inlines reads as.
#[derive(Drop)]
struct Reading {
    row: Row,
    asked: Asked,
}

/// A reading. All copies of one with inlines share it, since nothing changes it; one without needs no memory to be shared.
#[derive(Drop)]
enum Held {
    Empty(Asked),
    Shared(Arc<Reading, Global>),
}

/// The reading of one inline text: its tree, and the labels that were looked up for it. Only this crate makes one.
#[derive(Drop)]
pub struct Parsed {
    held: Held,
}

impl Model for Parsed {
    ghost use Rattle.inlinespec.specs.ParsedText.{ParsedText, parsed_code};

    ghost Value = { ParsedText };

    ghost coded = { parsed_code };

    ghost use Rattle.mdinline.specs.held.HeldReadings.{held_view};

    ghost view = { λ p. held_view p.held };
}

impl Parsed {
    pub(crate) fn new(alloc: Global, row: Row, asked: Asked) -> Result<Parsed, NoMemory>
        ensures tree { IfOk result (λ parsed. parsed.tree ≡ row_view row) }
        ensures asked { IfOk result (λ parsed. parsed.asked ≡ asked) }
    {
        if let Row::Empty = row {
            return Ok(Parsed {
                held: Held::Empty(asked),
            });
        }
        Ok(Parsed {
            held: Held::Shared(Arc::new(alloc, Reading { row, asked })?),
        })
    }

    /// The tree of the text. Takes no memory.
    pub fn tree(&self) -> &[Inline]
        ensures { inlines_view result.now ≡ self.now.tree }
    {
        match &self.held {
            Held::Empty(_) => &[],
            Held::Shared(reading) => reading.row.inlines(),
        }
    }

    /// The labels that were looked up, found or not. Takes no memory.
    pub fn asked(&self) -> &Asked
        ensures { result.now ≡ self.now.asked }
    {
        match &self.held {
            Held::Empty(asked) => asked,
            Held::Shared(reading) => &reading.asked,
        }
    }

    /// An equal reading, which shares its tree with this one. `NoMemory` also where 2^63 readings share it.
    pub fn copy(&self, alloc: Global) -> Result<Parsed, NoMemory>
        ensures { IfOk result (λ copy. copy ≡ self.now) }
    {
        match &self.held {
            Held::Empty(asked) => Ok(Parsed {
                held: Held::Empty(asked.copy(alloc)?),
            }),
            Held::Shared(reading) => Ok(Parsed {
                held: Held::Shared(Arc::try_clone(reading)?),
            }),
        }
    }
}

impl fmt::Debug for Parsed {
    fn fmt<W: fmt::Write>(&self, f: &mut fmt::Formatter<W>) -> fmt::Result {
        f.debug_struct("Parsed")
            .field("tree", &self.tree())
            .field("asked", self.asked())
            .finish()
    }
}
