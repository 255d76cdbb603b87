//! Nodes of a unit's tree, and the edges of a walk.

ghost use Rattle.std.specs.Prelude.{◌≡◌, ◌++◌, ◌∷◌, [], OnOk};
ghost use Rattle.mdwalk.specs.TreeEdges.{enter, leave};
ghost use Rattle.mdwalk.specs.EdgeView.{edges_view, node_view};

use mdblock::{Block, Item};
use mdinline::Inline;
use mdtext::NoMemory;

/// A node of a unit's tree.
#[derive(Clone, Copy, Debug, Drop)]
pub enum Node<'a> {
    /// A block of any kind.
    Block(&'a Block),
    /// An item of a list.
    Item(&'a Item),
    /// The header row of a table, by the positions of its cells among the unit's texts.
    Head(&'a [usize]),
    /// A data row of a table, likewise.
    Row(&'a [usize]),
    /// A cell, by its text's position.
    Cell(usize),
    /// An inline of any kind.
    Inline(&'a Inline),
}

/// One step of a walk.
#[derive(Clone, Copy, Debug, Drop)]
pub enum Edge<'a> {
    /// The walk comes to a node.
    Enter(Node<'a>),
    /// The walk has been through all that lies in a node.
    Leave(Node<'a>),
}

pub(crate) fn enter<'a>(node: Node<'a>, edges: &mut Vec<Edge<'a>>) -> Result<(), NoMemory>
    ensures { OnOk result (edges_view edges.new.items ≡ edges_view edges.old.items ++ enter (node_view node.entry) ∷ []) }
{
    edges.push(Edge::Enter(node))?;
    Ok(())
}

pub(crate) fn leave<'a>(node: Node<'a>, edges: &mut Vec<Edge<'a>>) -> Result<(), NoMemory>
    ensures { OnOk result (edges_view edges.new.items ≡ edges_view edges.old.items ++ leave (node_view node.entry) ∷ []) }
{
    edges.push(Edge::Leave(node))?;
    Ok(())
}
