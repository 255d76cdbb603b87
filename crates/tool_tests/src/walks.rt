//! Walks over the units of small texts.

use mdblock::{Block, Found, Reader};
use mdinline::{Inline, LabelTable, Parsed, read};
use mdtext::{Entities, Tally};
use mdwalk::{Edge, Node, Walk};
use std::alloc::{AllocError, Global};
use std::test::Fail;

fn block_name(block: &Block) -> &'static str {
    match block {
        Block::Paragraph { .. } => "paragraph",
        Block::Heading { .. } => "heading",
        Block::Break => "break",
        Block::Code { .. } => "code block",
        Block::Html(_) => "html block",
        Block::Quote(_) => "quote",
        Block::List { .. } => "list",
        Block::Table { .. } => "table",
    }
}

fn inline_name(inline: &Inline) -> &'static str {
    match inline {
        Inline::Text(_) => "text",
        Inline::Code(_) => "code",
        Inline::Html(_) => "html",
        Inline::Soft => "soft",
        Inline::Hard => "hard",
        Inline::Emph(_) => "emph",
        Inline::Strong(_) => "strong",
        Inline::Strike(_) => "strike",
        Inline::Link(..) => "link",
        Inline::Image(..) => "image",
    }
}

fn name_of(node: Node<'_>) -> &'static str {
    match node {
        Node::Block(block) => block_name(block),
        Node::Item(_) => "item",
        Node::Head(_) => "head",
        Node::Row(_) => "row",
        Node::Cell(_) => "cell",
        Node::Inline(inline) => inline_name(inline),
    }
}

/// The only unit of a text.
fn unit_of(alloc: Global, entities: &Entities, lines: &[&str]) -> Result<Option<Found>, Fail> {
    let mut reader = Reader::new(alloc, entities, 64);
    let mut count = Tally::new();
    for line in lines {
        if reader.fed() == usize::MAX || line.len() > usize::MAX / 4 {
            return Err("too long".into());
        }
        reader.line(line, &mut count)?;
    }
    Ok(reader.finish()?)
}

/// The readings of a unit's texts.
fn texts_of(alloc: Global, entities: &Entities, found: &Found) -> Result<Vec<Parsed>, Fail> {
    let mut texts = Vec::new(alloc);
    let labels = LabelTable::new(alloc);
    for text in found.unit().texts() {
        texts.push(read(alloc, text, &labels, entities, 64, &mut Tally::new())?)?;
    }
    Ok(texts)
}

/// The walk over the only unit of a text: a node's name where it is entered, and a `;` where it is left.
fn walked(alloc: Global, lines: &[&str]) -> Result<String, Fail> {
    let entities = Entities::builtin(alloc)?;
    let mut shown = String::new(alloc);
    let Some(found) = unit_of(alloc, &entities, lines)? else {
        return Ok(shown);
    };
    let texts = texts_of(alloc, &entities, &found)?;
    for edge in Walk::new(alloc, found.unit().blocks(), &texts)? {
        match edge {
            Edge::Enter(node) => write!(&mut shown, "{} ", name_of(node))?,
            Edge::Leave(_) => shown.push_str("; ")?,
        }
    }
    Ok(shown)
}

static WALKED: &[(&[&str], &str)] = &[
    (&[], ""),
    (&["***"], "break ; "),
    (&["# a *b*"], "heading text ; emph text ; ; ; "),
    (
        &["a `b`  ", "[c **d**](/e) ![f](/g)"],
        "paragraph text ; code ; hard ; link text ; strong text ; ; ; text ; image text ; ; ; ",
    ),
    (
        &["> - a", "> - b", ">", "> c"],
        "quote list item paragraph text ; ; ; item paragraph text ; ; ; ; paragraph text ; ; ; ",
    ),
    (
        &["|a|b|", "|-|-|", "|~~c~~|"],
        "table head cell text ; ; cell text ; ; ; row cell strike text ; ; ; cell ; ; ; ",
    ),
    (&["- ```", "  a"], "list item code block ; ; ; "),
];

#[test]
fn walks_over_each_kind_of_node(rt: HostRuntime) -> Result<(), Fail> {
    for (lines, want) in WALKED {
        let shown = walked(rt.alloc(), lines)?;
        assert_eq!(rt; shown.as_str(), *want);
    }
    Ok(())
}
