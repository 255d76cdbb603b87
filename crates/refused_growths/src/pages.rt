//! Whole texts, and definitions that stand below them.

use crate::reports::{say, say_failed, say_refused};
use mdbatch::to_html;
use mdtext::{Entities, Tally};
use mdview::{EditFault, Options, Prelude};
use std::alloc::{AllocError, Global};

/// Whole texts: a loose list, links with and without a definition, and a table with bars in its cells.
const PAGES: [&str; 3] = [
    "- foo\n\n\tbar",
    "[foo][bar][baz]\n\n[baz]: /url1\n[foo]: /url2\n",
    "| f\\|oo  |\n| ------ |\n| b `\\|` az |\n",
];

/// Turns each of the texts into HTML, without definitions beside it and with one.
pub fn try_pages(alloc: Global, said: &mut String) -> Result<(), AllocError> {
    let entities = Entities::builtin(alloc)?;
    let none = Prelude::empty(alloc);
    for page in PAGES {
        try_page(alloc, page, &entities, &none, said)?;
    }
    let lines = ["[Bar]: /url3 'of the prelude'"];
    let options = Options::plain();
    let mut answer = Prelude::read(alloc, &lines, &entities, &options, &mut Tally::new());
    if matches!(answer, Err(EditFault::NoMemory)) {
        say_refused(said, true)?;
        answer = Prelude::read(alloc, &lines, &entities, &options, &mut Tally::new());
    }
    match answer {
        Ok(prelude) => try_page(alloc, PAGES[1], &entities, &prelude, said),
        Err(_) => say_failed(said, "Prelude"),
    }
}

fn try_page(
    alloc: Global,
    page: &str,
    entities: &Entities,
    prelude: &Prelude,
    said: &mut String,
) -> Result<(), AllocError> {
    let options = Options::plain();
    let mut answer = to_html(alloc, page, entities, &options, prelude);
    if matches!(answer, Err(EditFault::NoMemory)) {
        say_refused(said, true)?;
        answer = to_html(alloc, page, entities, &options, prelude);
    }
    match answer {
        Ok(html) => say(said, "to_html", &html),
        Err(_) => say_failed(said, "to_html"),
    }
}
