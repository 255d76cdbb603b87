//! The edges of inlines.

ghost use Rattle.std.specs.Prelude.{◌≡◌, ◌++◌, OnOk, slice_get};
ghost use Rattle.mdinline.specs.TreeView.{inline_view, inlines_view};
ghost use Rattle.mdwalk.specs.TreeEdges.{around, inline_node, inlines_edges, inside_inline, inside_text};
ghost use Rattle.mdwalk.specs.EdgeView.{edges_view};

use crate::nodes::{Edge, Node, enter, leave};
use mdinline::{Inline, Parsed};
use mdtext::NoMemory;

/// Those of the text at a position; of no text none.
pub(crate) fn push_text<'a>(
    at: usize,
    texts: &'a [Parsed],
    edges: &mut Vec<Edge<'a>>,
) -> Result<(), NoMemory>
    ensures { OnOk result (edges_view edges.new.items ≡ edges_view edges.old.items ++ inside_text (slice_get texts.now at)) }
{
    match texts.get(at) {
        Some(text) => push_inlines(text.tree(), edges),
        None => Ok(()),
    }
}

#[cycle(inline)]
fn push_inlines<'a>(inlines: &'a [Inline], edges: &mut Vec<Edge<'a>>) -> Result<(), NoMemory>
    ensures { OnOk result (edges_view edges.new.items ≡ edges_view edges.old.items ++ inlines_edges (inlines_view inlines.now)) }
{
    for inline in inlines {
        push_inline(inline, edges)?;
    }
    Ok(())
}

#[cycle(inline)]
fn push_inline<'a>(inline: &'a Inline, edges: &mut Vec<Edge<'a>>) -> Result<(), NoMemory>
    ensures { OnOk result (edges_view edges.new.items ≡ edges_view edges.old.items
        ++ around (inline_node (inline_view inline.now)) (inside_inline (inline_view inline.now))) }
{
    enter(Node::Inline(inline), edges)?;
    push_inside(inline, edges)?;
    leave(Node::Inline(inline), edges)
}

#[cycle(inline)]
fn push_inside<'a>(inline: &'a Inline, edges: &mut Vec<Edge<'a>>) -> Result<(), NoMemory>
    ensures { OnOk result (edges_view edges.new.items ≡ edges_view edges.old.items ++ inside_inline (inline_view inline.now)) }
{
    match inline {
        Inline::Text(_) | Inline::Code(_) | Inline::Html(_) | Inline::Soft | Inline::Hard => Ok(()),
        Inline::Emph(inner) => push_inlines(inner, edges),
        Inline::Strong(inner) => push_inlines(inner, edges),
        Inline::Strike(inner) => push_inlines(inner, edges),
        Inline::Link(_, inner) => push_inlines(inner, edges),
        Inline::Image(_, inner) => push_inlines(inner, edges),
    }
}
