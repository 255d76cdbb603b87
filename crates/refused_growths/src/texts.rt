//! The calls on characters, references, labels and rows of tables.

use crate::reports::{say, say_failed, say_refused};
use mdscan::cells;
use mdtext::{Entities, TableFault, escape_text, escape_url, fold_label, lines_of, unescape};
use std::alloc::{AllocError, Global};

/// Makes each of the calls.
pub fn try_texts(alloc: Global, said: &mut String) -> Result<(), AllocError> {
    try_escape_text(alloc, said)?;
    try_escape_url(alloc, said)?;
    try_unescape(alloc, said)?;
    try_fold_label(alloc, said)?;
    try_lines_of(alloc, said)?;
    try_cells(alloc, said)?;
    try_builtin(alloc, said)?;
    try_from_json(alloc, said)?;
    try_html(alloc, said)
}

/// What stands before the text that a call appends.
const FRONT: &str = "front ";

fn try_escape_text(alloc: Global, said: &mut String) -> Result<(), AllocError> {
    let mut text = String::from_str(alloc, FRONT)?;
    let mut answer = escape_text("a<b>&\"c\"", &mut text);
    if answer.is_err() {
        say_refused(said, text.as_str() == FRONT)?;
        answer = escape_text("a<b>&\"c\"", &mut text);
    }
    say_appended(said, "escape_text", answer.is_ok(), &text)
}

fn try_escape_url(alloc: Global, said: &mut String) -> Result<(), AllocError> {
    let mut text = String::from_str(alloc, FRONT)?;
    let mut answer = escape_url("/\u{E4}&'", &mut text);
    if answer.is_err() {
        say_refused(said, text.as_str() == FRONT)?;
        answer = escape_url("/\u{E4}&'", &mut text);
    }
    say_appended(said, "escape_url", answer.is_ok(), &text)
}

fn try_unescape(alloc: Global, said: &mut String) -> Result<(), AllocError> {
    let entities = Entities::builtin(alloc)?;
    let mut text = String::from_str(alloc, FRONT)?;
    let mut answer = unescape("\\a\\*&copy;&#X22;", &entities, &mut text);
    if answer.is_err() {
        say_refused(said, text.as_str() == FRONT)?;
        answer = unescape("\\a\\*&copy;&#X22;", &entities, &mut text);
    }
    say_appended(said, "unescape", answer.is_ok(), &text)
}

fn say_appended(said: &mut String, call: &str, done: bool, text: &str) -> Result<(), AllocError> {
    if done {
        say(said, call, text)
    } else {
        say_failed(said, call)
    }
}

/// Two labels that are matched, since sharp S folds to two letters.
fn try_fold_label(alloc: Global, said: &mut String) -> Result<(), AllocError> {
    for inside in [" \u{1E9E}  a ", "SS a"] {
        let mut answer = fold_label(alloc, inside);
        if answer.is_err() {
            say_refused(said, true)?;
            answer = fold_label(alloc, inside);
        }
        match answer {
            Ok(Some(label)) => say(said, "fold_label", label.as_str())?,
            _ => say_failed(said, "fold_label")?,
        }
    }
    Ok(())
}

fn try_lines_of(alloc: Global, said: &mut String) -> Result<(), AllocError> {
    let mut answer = lines_of(alloc, "\u{FEFF}a\rb\0\r\nc");
    if answer.is_err() {
        say_refused(said, true)?;
        answer = lines_of(alloc, "\u{FEFF}a\rb\0\r\nc");
    }
    match answer {
        Ok(lines) => {
            for line in &lines {
                say(said, "lines_of", line)?;
            }
            Ok(())
        }
        Err(_) => say_failed(said, "lines_of"),
    }
}

/// A row of three cells, of which one has a bar in it.
const ROW: &str = "| abc | f\\|oo  | |";

fn try_cells(alloc: Global, said: &mut String) -> Result<(), AllocError> {
    let mut answer = cells(alloc, ROW);
    if answer.is_err() {
        say_refused(said, true)?;
        answer = cells(alloc, ROW);
    }
    match answer {
        Ok(spans) => {
            for span in &spans {
                write!(said, "cells: {} to {}\n", span.start, span.end)?;
            }
            Ok(())
        }
        Err(_) => say_failed(said, "cells"),
    }
}

fn try_builtin(alloc: Global, said: &mut String) -> Result<(), AllocError> {
    let mut answer = Entities::builtin(alloc);
    if answer.is_err() {
        say_refused(said, true)?;
        answer = Entities::builtin(alloc);
    }
    match answer {
        Ok(entities) => say(said, "builtin", entities.get("auml").unwrap_or("none")),
        Err(_) => say_failed(said, "builtin"),
    }
}

/// An entity file with an entry that counts and one that does not.
const FILE: &str =
    "{\"&x;\":{\"codepoints\":[121],\"characters\":\"y\"},\"&amp\":{\"characters\":\"&\"}}";

fn try_from_json(alloc: Global, said: &mut String) -> Result<(), AllocError> {
    let mut answer = Entities::from_json(alloc, FILE.as_bytes());
    if matches!(answer, Err(TableFault::NoMemory)) {
        say_refused(said, true)?;
        answer = Entities::from_json(alloc, FILE.as_bytes());
    }
    match answer {
        Ok(entities) => {
            say(said, "from_json", entities.get("x").unwrap_or("none"))?;
            say(said, "from_json", entities.get("amp").unwrap_or("none"))
        }
        Err(_) => say_failed(said, "from_json"),
    }
}

fn try_html(alloc: Global, said: &mut String) -> Result<(), AllocError> {
    let mut answer = Entities::html(alloc);
    if matches!(answer, Err(TableFault::NoMemory)) {
        say_refused(said, true)?;
        answer = Entities::html(alloc);
    }
    match answer {
        Ok(entities) => say(said, "html", entities.get("hearts").unwrap_or("none")),
        Err(_) => say_failed(said, "html"),
    }
}
