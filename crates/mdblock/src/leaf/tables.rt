//! Tables (GFM Tables (extension)).

ghost use Rattle.std.specs.Prelude.{◌≡◌, ◌≤◌, ℕ, [], ◌∷◌, ◌++◌, IfOk, IfSome, OnOk, Some, length};
ghost use Rattle.blockspec.specs.BlockLine.{rest};
ghost use Rattle.blockspec.specs.BlockTree.{table};
ghost use Rattle.blockspec.specs.OpenLeaf.{row_of};
ghost use Rattle.mdleaf.specs.Tables.{header_of};
ghost use Rattle.mdblock.specs.BlockView.{block_view};
ghost use Rattle.mdblock.specs.held.Growing.{Grows};
ghost use Rattle.mdblock.specs.held.HandedIn.{gathered_texts};
ghost use Rattle.mdblock.specs.held.HeldTables.{IsHeaderRow, IsRowMore, held_rows};
ghost use Rattle.mdblock.specs.held.OpenPositions.{LeafAfterIn, TableIn};
ghost use Rattle.mdblock.specs.Positions.{BlockIn, CellsIn};
ghost use Rattle.blockspec.specs.Stretches.{is_row};

use crate::block_starts::{Mode, start};
use crate::blocks::Block;
use crate::gathering::Gathering;
use crate::leaf::{Leaf, LeafAfter};
use crate::lines::Line;
use mdleaf::{Header, data_row};
use mdscan::Align;
use std::alloc::AllocError;

/// An open table: the alignments of its columns, and the positions of its cells.
#[derive(Drop)]
pub(crate) struct Table {
    aligns: Vec<Align>,
    head: Vec<usize>,
    rows: Vec<Vec<usize>>,
}

impl Table {
    /// Whether a line is a row of the table: it matches the containers around, is not blank, and begins no block.
    #[tactic(auto, using(crate::proofs::StartLaws::none_begins))]
    pub(crate) fn takes(&self, line: &Line) -> bool
        ensures { result ≡ is_row line.now }
    {
        !line.is_lazy() && !line.is_blank() && start(line, Mode::Free).is_none()
    }

    /// The table with this header row, which is handed in.
    pub(crate) fn new(header: Header, gathering: &mut Gathering) -> Result<Table, AllocError>
        ensures within { IfOk result (λ table. TableIn (length gathering.new.texts.items) table) }
        ensures grows { Grows gathering.old gathering.new }
        ensures header { IfOk result (IsHeaderRow (length gathering.old.texts.items) (header_of header)) }
        ensures texts { OnOk result (gathered_texts gathering.new ≡ gathered_texts gathering.old ++ (header_of header).cells) }
        ensures definitions { gathering.new.definitions ≡ gathering.old.definitions }
    {
        Ok(Table {
            aligns: header.aligns,
            head: gathering.row(header.cells)?,
            rows: Vec::new(gathering.alloc()),
        })
    }

    /// Appends a data row.
    pub(crate) fn push_row(
        &mut self,
        line: &Line,
        gathering: &mut Gathering,
    ) -> Result<(), AllocError>
        requires { TableIn (length gathering.old.texts.items) self.old }
        ensures within { OnOk result (TableIn (length gathering.new.texts.items) self.new) }
        ensures grows { Grows gathering.old gathering.new }
        ensures row { OnOk result (IsRowMore (length gathering.old.texts.items) self.old (Leaf.Table self.new)) }
        ensures texts { OnOk result (gathered_texts gathering.new
            ≡ gathered_texts gathering.old ++ row_of self.old.aligns.items (rest line.now)) }
        ensures definitions { gathering.new.definitions ≡ gathering.old.definitions }
    {
        let cells = data_row(gathering.alloc(), line.text(), self.aligns.len())?;
        let row = gathering.row(cells)?;
        self.push(row)?;
        Ok(())
    }

    fn push(&mut self, row: Vec<usize>) -> Result<(), AllocError>
        ensures within { OnOk result ((n : ℕ) → TableIn n self.old → CellsIn n row.items → TableIn n self.new) }
        ensures aligns { self.new.aligns ≡ self.old.aligns }
        ensures head { self.new.head ≡ self.old.head }
        ensures rows { OnOk result (held_rows self.new ≡ held_rows self.old ++ row.items ∷ []) }
    {
        self.rows.push(row)?;
        Ok(())
    }

    /// The open table behind a paragraph that is over.
    pub(crate) fn behind(self, over: Option<Block>) -> LeafAfter
        ensures value { result ≡ record { over = over; going = Some (Leaf.Table self) } }
        ensures within { (n : ℕ) → IfSome over (λ block. BlockIn n (block_view block)) → TableIn n self → LeafAfterIn n result }
    {
        LeafAfter {
            over,
            going: Some(Leaf::Table(self)),
        }
    }

    /// What the table is at its end.
    pub(crate) fn end(self) -> Block
        ensures value { block_view result ≡ table self.aligns.items self.head.items (held_rows self) }
        ensures within { (n : ℕ) → TableIn n self → BlockIn n (block_view result) }
    {
        Block::Table {
            aligns: self.aligns,
            head: self.head,
            rows: self.rows,
        }
    }
}
