//! What the leaves of a unit hand in as they close.

ghost use Rattle.std.specs.Prelude.{◌≡◌, ◌-◌, ◌<◌, ◌≤◌, [], ◌∷◌, ◌++◌, IfOk, OnOk, length, map};
ghost use Rattle.std.specs.List.{range_with_len};
ghost use Rattle.mdleaf.specs.DefinedLinks.{definition_of};
ghost use Rattle.mdblock.specs.held.Growing.{Grows};
ghost use Rattle.mdblock.specs.held.HandedIn.{gathered_definitions};
ghost use Rattle.mdblock.specs.Positions.{CellsIn};

use mdleaf::Definition;
use mdtext::Entities;
use std::alloc::{AllocError, Global};
use std::mem;

/// The definitions and the inline texts of a unit, in document order.
#[derive(Drop)]
pub(crate) struct Gathering<'e> {
    alloc: Global,
    entities: &'e Entities,
    definitions: Vec<Definition>,
    texts: Vec<String>,
}

impl<'e> Gathering<'e> {
    pub(crate) fn new(alloc: Global, entities: &'e Entities) -> Gathering<'e>
        ensures definitions { result.definitions.items ≡ [] }
        ensures texts { result.texts.items ≡ [] }
        ensures entities { result.entities ≡ entities.entry }
    {
        Gathering {
            alloc,
            entities,
            definitions: Vec::new(alloc),
            texts: Vec::new(alloc),
        }
    }

    pub(crate) fn alloc(&self) -> Global {
        self.alloc
    }

    pub(crate) fn entities(&self) -> &'e Entities
        ensures { result.now ≡ self.now.entities.now }
    {
        self.entities
    }

    /// Takes a text in, and answers its position.
    pub(crate) fn text(&mut self, text: String) -> Result<usize, AllocError>
        ensures within { IfOk result (λ position. position < length self.new.texts.items) }
        ensures grows { Grows self.old self.new }
        ensures position { IfOk result (λ position. position ≡ length self.old.texts.items) }
        ensures texts { OnOk result (self.new.texts.items ≡ self.old.texts.items ++ text ∷ []) }
        ensures definitions { self.new.definitions ≡ self.old.definitions }
    {
        let position = self.texts.len();
        self.texts.push(text)?;
        Ok(position)
    }

    /// Takes the cells of a row in, and answers their positions.
    pub(crate) fn row(&mut self, mut cells: Vec<String>) -> Result<Vec<usize>, AllocError>
        ensures within { IfOk result (λ positions. CellsIn (length self.new.texts.items) positions.items) }
        ensures grows { Grows self.old self.new }
        ensures positions { IfOk result (λ positions. positions.items ≡ range_with_len (length self.old.texts.items) (length cells.items)) }
        ensures texts { OnOk result (self.new.texts.items ≡ self.old.texts.items ++ cells.items) }
        ensures definitions { self.new.definitions ≡ self.old.definitions }
    {
        let start = self.texts.len();
        self.texts.append(&mut cells)?;
        positions(self.alloc, start, self.texts.len())
    }

    /// Takes definitions in, and leaves none of them.
    pub(crate) fn define(&mut self, definitions: &mut Vec<Definition>) -> Result<(), AllocError>
        ensures texts { self.new.texts ≡ self.old.texts }
        ensures entities { self.new.entities.now ≡ self.old.entities.now }
        ensures found { OnOk result (gathered_definitions self.new ≡ gathered_definitions self.old ++ map definition_of definitions.old.items) }
    {
        self.definitions.append(definitions)
    }

    /// How many texts were taken in. Takes no memory.
    pub(crate) fn texts_len(&self) -> usize
        ensures { result ≡ length self.now.texts.items }
    {
        self.texts.len()
    }

    /// How many definitions were taken in. Takes no memory.
    pub(crate) fn definitions_len(&self) -> usize
        ensures { result ≡ length self.now.definitions.items }
    {
        self.definitions.len()
    }

    /// Takes the definitions and the texts out, and leaves none.
    pub(crate) fn take_parts(&mut self) -> (Vec<Definition>, Vec<String>)
        ensures definitions { result.0 ≡ self.old.definitions }
        ensures texts { result.1 ≡ self.old.texts }
        ensures no_definitions { self.new.definitions.items ≡ [] }
        ensures no_texts { self.new.texts.items ≡ [] }
        ensures entities { self.new.entities.now ≡ self.old.entities.now }
    {
        (
            mem::replace(&mut self.definitions, Vec::new(self.alloc)),
            mem::replace(&mut self.texts, Vec::new(self.alloc)),
        )
    }
}

/// The positions from one on and before another.
fn positions(alloc: Global, start: usize, end: usize) -> Result<Vec<usize>, AllocError>
    requires { start ≤ end }
    ensures within { IfOk result (λ positions. CellsIn end positions.items) }
    ensures all { IfOk result (λ positions. positions.items ≡ range_with_len start (end - start)) }
{
    let mut positions = Vec::with_capacity(alloc, end - start)?;
    for position in start..end {
        positions.push(position)?;
    }
    Ok(positions)
}
