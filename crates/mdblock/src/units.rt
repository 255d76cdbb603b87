//! Units: what is handed out of a document.

ghost use Rattle.std.specs.Prelude.{◌≡◌, ◌+◌, ◌*◌, ◌≤◌, length, map, string_bytes};
ghost use Rattle.mdleaf.specs.DefinedLinks.{definition_of};
ghost use Rattle.mdblock.specs.BlockView.{blocks_view};
ghost use Rattle.mdblock.specs.FoundLists.{join_mark};
ghost use Rattle.mdblock.specs.Positions.{BlocksIn};

pub(crate) mod insets;

use crate::blocks::Block;
use mdleaf::Definition;
use std::marker::Model;

/// A top-level block with all that comes of its lines: a whole list, or all of one paragraph's stretch of lines (its definitions, then a paragraph
/// or a heading, or a paragraph and a table). A unit of definitions alone has no block. Only this crate makes one.
#[derive(Debug, Drop)]
pub struct Unit {
    blocks: Vec<Block>,
    definitions: Vec<Definition>,
    texts: Vec<String>,
}

impl Model for Unit {
    ghost use Rattle.blockspec.specs.UnitTree.{UnitTree, unit_code};

    ghost Value = { UnitTree };

    ghost coded = { unit_code };

    ghost use Rattle.mdblock.specs.BlockView.{blocks_view};
    ghost use Rattle.mdblock.specs.Positions.{BlocksIn};
    ghost use Rattle.mdleaf.specs.DefinedLinks.{definition_of};
    ghost use Rattle.std.specs.Prelude.{map, length, string_bytes};

    ghost view = { λ u. record {
      blocks = blocks_view u.blocks.items;
      definitions = map definition_of u.definitions.items;
      texts = map string_bytes u.texts.items;
    } };

    ghost invariant = { λ u. BlocksIn (length u.texts.items) (blocks_view u.blocks.items) };
}

impl Unit {
    /// The blocks; each text and cell in them is the position of one of the unit's texts. Takes no memory.
    pub fn blocks(&self) -> &[Block]
        ensures value { blocks_view result.now ≡ self.now.blocks }
        ensures within { BlocksIn (length self.now.texts) self.now.blocks }
    {
        &self.blocks
    }

    /// The link reference definitions, in document order. Takes no memory.
    pub fn definitions(&self) -> &[Definition]
        ensures { map definition_of result.now ≡ self.now.definitions }
    {
        &self.definitions
    }

    /// The inline texts, in document order. Takes no memory.
    pub fn texts(&self) -> &[String]
        ensures { map string_bytes result.now ≡ self.now.texts }
    {
        &self.texts
    }

    /// A few units' definitions and texts can be counted together, since each of them lies in memory.
    pub(crate) fn lies_in_memory(&self)
        ensures definitions { 4 * length self.now.definitions ≤ usize.MAX }
        ensures texts { 4 * length self.now.texts ≤ usize.MAX }
    {
        let definitions: &[Definition] = &self.definitions;
        let texts: &[String] = &self.texts;
        let _ = definitions.len();
        let _ = texts.len();
    }

    /// The definitions and the texts of two units can be counted together, since each of them lies in a vector.
    pub(crate) fn count_with(&self, other: &Unit)
        ensures definitions { length self.now.definitions + length other.now.definitions ≤ usize.MAX }
        ensures texts { length self.now.texts + length other.now.texts ≤ usize.MAX }
    {
        let _ = &self.texts;
        let _ = &other.texts;
    }
}

/// A later item of a unit that is a list: the list may be parted before it.
#[derive(Clone, Copy, Debug, PartialEq, Eq)]
pub struct Join {
    /// How many lines of the unit stand before it.
    pub line: usize,
    /// How many inline texts the items before it give.
    pub texts: usize,
    /// How many definitions they give.
    pub(crate) definitions: usize,
    /// Whether a gap stands before it, or parts two blocks of the item before it.
    pub(crate) loose: bool,
}

/// A unit where it was found. Only this crate makes one.
#[derive(Debug, Drop)]
pub struct Found {
    begin: usize,
    lines: usize,
    unit: Unit,
    joins: Vec<Join>,
    /// Whether a gap parts two blocks of the last item of a list.
    parted: bool,
}

impl Model for Found {
    ghost use Rattle.std.specs.Prelude.{map};
    ghost use Rattle.mdblock.specs.FoundLists.{FoundList, list_code, join_mark};

    ghost Value = { FoundList };

    ghost coded = { list_code };

    ghost view = { λ f. record { begin = f.begin; lines = f.lines; unit = f.unit; marks = map join_mark f.joins.items; parted = f.parted } };
}

impl Found {
    /// A unit, with where its first line stands, how many lines it has, and the later items of a list.
    pub(crate) fn new(
        begin: usize,
        lines: usize,
        blocks: Vec<Block>,
        definitions: Vec<Definition>,
        texts: Vec<String>,
        joins: Vec<Join>,
        parted: bool,
    ) -> Found
        requires { BlocksIn (length texts.items) (blocks_view blocks.items) }
        ensures { result ≡ record {
          begin = begin;
          lines = lines;
          unit = record {
            blocks = blocks_view blocks.items;
            definitions = map definition_of definitions.items;
            texts = map string_bytes texts.items;
          };
          marks = map join_mark joins.items;
          parted = parted;
        } }
    {
        Found {
            begin,
            lines,
            unit: Unit {
                blocks,
                definitions,
                texts,
            },
            joins,
            parted,
        }
    }

    /// How many lines were fed before the unit's first line. Takes no memory.
    pub fn begin(&self) -> usize
        ensures { result ≡ self.now.begin }
    {
        self.begin
    }

    /// How many lines there are from the unit's first line to the next unit's, or to the end. Takes no memory.
    pub fn lines(&self) -> usize
        ensures { result ≡ self.now.lines }
    {
        self.lines
    }

    /// The unit. Takes no memory.
    pub fn unit(&self) -> &Unit
        ensures { result.now ≡ self.now.unit }
    {
        &self.unit
    }

    /// The later items of a unit that is a list, in document order; none of any other. Takes no memory.
    pub fn joins(&self) -> &[Join]
        ensures { map join_mark result.now ≡ self.now.marks }
    {
        &self.joins
    }

    /// The blocks of the unit, its definitions, its texts, and the later items of a list.
    pub(crate) fn into_parts(self) -> (Vec<Block>, Vec<Definition>, Vec<String>, Vec<Join>)
        ensures blocks { blocks_view result.0.items ≡ self.unit.blocks }
        ensures definitions { map definition_of result.1.items ≡ self.unit.definitions }
        ensures texts { map string_bytes result.2.items ≡ self.unit.texts }
        ensures joins { map join_mark result.3.items ≡ self.marks }
    {
        let Unit {
            blocks,
            definitions,
            texts,
        } = self.unit;
        (blocks, definitions, texts, self.joins)
    }

    /// Whether a gap parts two blocks of its last item, where it is a list.
    pub(crate) fn is_parted(&self) -> bool
        ensures { result ≡ self.now.parted }
    {
        self.parted
    }
}
