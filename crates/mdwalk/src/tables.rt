//! The edges of tables.

ghost use Rattle.std.specs.Prelude.{◌≡◌, ◌++◌, OnOk, map};
ghost use Rattle.mdwalk.specs.TreeEdges.{around, cell_edges, cells_edges, head_node, row_node, rows_edges, table_edges};
ghost use Rattle.mdwalk.specs.EdgeView.{edges_view};

use crate::inlines::push_text;
use crate::nodes::{Edge, Node, enter, leave};
use mdinline::Parsed;
use mdtext::NoMemory;

pub(crate) fn push_table<'a>(
    head: &'a [usize],
    rows: &'a [Vec<usize>],
    texts: &'a [Parsed],
    edges: &mut Vec<Edge<'a>>,
) -> Result<(), NoMemory>
    ensures { OnOk result (edges_view edges.new.items ≡ edges_view edges.old.items
        ++ table_edges texts.now head.now (map (λ row. row.items) rows.now)) }
{
    enter(Node::Head(head), edges)?;
    push_cells(head, texts, edges)?;
    leave(Node::Head(head), edges)?;
    push_rows(rows, texts, edges)
}

fn push_rows<'a>(
    rows: &'a [Vec<usize>],
    texts: &'a [Parsed],
    edges: &mut Vec<Edge<'a>>,
) -> Result<(), NoMemory>
    ensures { OnOk result (edges_view edges.new.items ≡ edges_view edges.old.items ++ rows_edges texts.now (map (λ row. row.items) rows.now)) }
{
    for row in rows {
        push_row(row, texts, edges)?;
    }
    Ok(())
}

fn push_row<'a>(
    row: &'a [usize],
    texts: &'a [Parsed],
    edges: &mut Vec<Edge<'a>>,
) -> Result<(), NoMemory>
    ensures { OnOk result (edges_view edges.new.items ≡ edges_view edges.old.items ++ around (row_node row.now) (cells_edges texts.now row.now)) }
{
    enter(Node::Row(row), edges)?;
    push_cells(row, texts, edges)?;
    leave(Node::Row(row), edges)
}

fn push_cells<'a>(
    cells: &'a [usize],
    texts: &'a [Parsed],
    edges: &mut Vec<Edge<'a>>,
) -> Result<(), NoMemory>
    ensures { OnOk result (edges_view edges.new.items ≡ edges_view edges.old.items ++ cells_edges texts.now cells.now) }
{
    for cell in cells {
        push_cell(*cell, texts, edges)?;
    }
    Ok(())
}

fn push_cell<'a>(
    cell: usize,
    texts: &'a [Parsed],
    edges: &mut Vec<Edge<'a>>,
) -> Result<(), NoMemory>
    ensures { OnOk result (edges_view edges.new.items ≡ edges_view edges.old.items ++ cell_edges texts.now cell) }
{
    enter(Node::Cell(cell), edges)?;
    push_text(cell, texts, edges)?;
    leave(Node::Cell(cell), edges)
}
