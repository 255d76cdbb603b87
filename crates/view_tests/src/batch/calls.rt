//! The calls of the batch way and of a preview as tests make them. What they promise stays here: a test looks at the answers, so its own proof is short.

ghost use Rattle.htmlspec.specs.Limits.{HasLimits};

use crate::calls::{edit, set_prelude};
use mdbatch::{Breaks, EditFault, Entities, Options, Prelude, to_html};
use mdtext::{NoMemory, Tally, lines_of};
use mdview::Preview;
use std::alloc::Global;
use std::test::Fail;

/// How HTML is written: the limits are the usual ones.
#[derive(Clone, Copy)]
pub(crate) struct Form {
    pub(crate) unsafe_html: bool,
    pub(crate) breaks: Breaks,
}

/// The form where nothing is asked for.
pub(crate) const PLAIN: Form = Form {
    unsafe_html: false,
    breaks: Breaks::Soft,
};

fn options(form: Form) -> Options
    ensures { HasLimits result }
{
    Options {
        unsafe_html: form.unsafe_html,
        breaks: form.breaks,
        ..Options::plain()
    }
}

/// What `to_html` answers.
pub(crate) fn html_of(
    alloc: Global,
    text: &str,
    form: Form,
    prelude: &[&str],
) -> Result<Result<String, EditFault>, Fail> {
    let entities = Entities::builtin(alloc)?;
    let options = options(form);
    let read = Prelude::read(alloc, prelude, &entities, &options, &mut Tally::new())?;
    Ok(to_html(alloc, text, &entities, &options, &read))
}

/// Gives a preview of nothing a prelude and lines.
fn fill(preview: &mut Preview, lines: &[&str], prelude: &[&str]) -> Result<(), EditFault> {
    set_prelude(preview, prelude, &mut Tally::new())?;
    edit(preview, 0, 0, lines, &mut Tally::new())?;
    Ok(())
}

fn filled(
    alloc: Global,
    lines: &[&str],
    form: Form,
    prelude: &[&str],
) -> Result<Preview, EditFault> {
    let mut preview = Preview::new(alloc, Entities::builtin(alloc)?, options(form));
    fill(&mut preview, lines, prelude)?;
    Ok(preview)
}

fn push_lent<'a>(lines: &'a [String], lent: &mut Vec<&'a str>) -> Result<(), NoMemory> {
    for line in lines {
        lent.push(line.as_str())?;
    }
    Ok(())
}

/// A preview of the lines of a text, or why it refuses them.
fn preview_of(
    alloc: Global,
    text: &str,
    form: Form,
    prelude: &[&str],
) -> Result<Preview, EditFault> {
    let lines = lines_of(alloc, text)?;
    let mut lent: Vec<&str> = Vec::new(alloc);
    push_lent(&lines, &mut lent)?;
    filled(alloc, &lent, form, prelude)
}

fn push_pieces(preview: &Preview, html: &mut String) -> Result<(), NoMemory> {
    for piece in preview.pieces() {
        html.push_str(piece)?;
    }
    Ok(())
}

/// What a preview shows after the edit that brings the lines of the text, or why it refuses it.
pub(crate) fn previewed(
    alloc: Global,
    text: &str,
    form: Form,
    prelude: &[&str],
) -> Result<String, EditFault> {
    let preview = preview_of(alloc, text, form, prelude)?;
    let mut html = String::new(alloc);
    push_pieces(&preview, &mut html)?;
    Ok(html)
}
