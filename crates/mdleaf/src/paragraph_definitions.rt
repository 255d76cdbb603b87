//! Link reference definitions, which stand at the front of a paragraph's text.

ghost use Rattle.std.specs.Prelude.{◌≡◌, ◌==◌, ◌<◌, ◌≤◌, true, Some, IfOk, IfSome, length, map, string_bytes};
ghost use Rattle.std.specs.Str.{IsCharBoundary};
ghost use Rattle.mdscan.specs.LinkDefinition.{AreDefSpans};
ghost use Rattle.mdscan.specs.LinkLabel.{label_at};
ghost use Rattle.mdscan.specs.Spans.{IsSpanOf};
ghost use Rattle.mdtext.specs.Labels.{is_label, folded, collapsed};
ghost use Rattle.mdtext.specs.Unescaped.{unescaped};
ghost use Rattle.mdleaf.specs.DefinedLinks.{definition_of};
ghost use Rattle.mdleaf.specs.ParagraphDefinitions.{defined, leading_end, leading_of, title_text};

use crate::span_texts::part_of;
use mdscan::{Def, Span, definition};
use mdtext::{Entities, Label, NoMemory, Target, fold_label, unescape};
use std::alloc::Global;

/// A link reference definition (CommonMark 4.7): a label, and where links with that label lead.
#[derive(Debug, Drop)]
pub struct Definition {
    /// The label that is defined.
    pub label: Label,
    /// Where it leads.
    pub target: Target,
}

/// The link reference definitions at the front of a paragraph's text, in their order, and where the rest begins, in
/// bytes.
#[derive(Debug, Drop)]
pub struct Leading {
    /// The definitions, in their order.
    pub definitions: Vec<Definition>,
    /// Where the rest begins, in bytes.
    pub rest: usize,
}

/// The link reference definitions that stand at the front of a paragraph's text one after the other (CommonMark 4.7). Refused for want of memory alone.
pub fn leading_definitions(
    alloc: Global,
    text: &str,
    entities: &Entities,
) -> Result<Leading, NoMemory>
    ensures definitions { IfOk result (λ leading. map definition_of leading.definitions.items ≡ leading_of entities.now text.now) }
    ensures rest { IfOk result (λ leading. leading.rest ≡ leading_end text.now) }
    ensures boundary { IfOk result (λ leading. IsCharBoundary text.now leading.rest) }
{
    let mut definitions = Vec::new(alloc);
    let mut end = 0;
    loop {
        let rest = &text[end..];
        let Some(def) = definition(rest) else {
            return Ok(Leading {
                definitions,
                rest: end,
            });
        };
        definitions.push(read_definition(alloc, rest, def, entities)?)?;
        end += def.end;
    }
}

/// Whether a paragraph's text is nothing but link reference definitions (CommonMark 4.7). Takes no memory.
pub fn is_only_definitions(text: &str) -> bool
    ensures { result ≡ (leading_end text.now == length text.now) }
{
    definitions_end(text) == text.len()
}

fn definitions_end(text: &str) -> usize
    ensures { result ≡ leading_end text.now }
{
    let mut end = 0;
    loop {
        let Some(def) = definition(&text[end..]) else {
            return end;
        };
        end += def.end;
    }
}

/// What the definition with these parts defines.
fn read_definition(
    alloc: Global,
    text: &str,
    def: Def,
    entities: &Entities,
) -> Result<Definition, NoMemory>
    requires label { label_at text.now 0 ≡ Some def.label }
    requires spans { AreDefSpans text.now def }
    ensures { IfOk result (λ definition. definition_of definition ≡ defined entities.now text.now def) }
{
    let label = read_label(alloc, part_of(text, def.label))?;
    let url = unescaped(alloc, part_of(text, def.destination), entities)?;
    let title = unescaped(alloc, title_text(text, def.title), entities)?;
    Ok(Definition {
        label,
        target: Target { url, title },
    })
}

fn read_label(alloc: Global, inside: &str) -> Result<Label, NoMemory>
    requires { is_label inside.now ≡ true }
    ensures { IfOk result (λ label. label ≡ folded (collapsed inside.now)) }
{
    match fold_label(alloc, inside)? {
        Some(label) => Ok(label),
        None => unreachable!(),
    }
}

fn title_text(text: &str, title: Option<Span>) -> &str
    requires { IfSome title (λ span. IsSpanOf text.now span) }
    ensures { result.now ≡ title_text text.now title }
{
    match title {
        Some(span) => part_of(text, span),
        None => "",
    }
}

fn unescaped(alloc: Global, text: &str, entities: &Entities) -> Result<String, NoMemory>
    ensures { IfOk result (λ out. string_bytes out ≡ unescaped entities.now text.now) }
{
    let mut out = String::new(alloc);
    unescape(text, entities, &mut out)?;
    Ok(out)
}
