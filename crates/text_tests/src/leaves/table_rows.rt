//! Rows of tables.

use mdleaf::{Header, begins_table, data_row, table_header};
use mdscan::Align;
use std::alloc::{AllocError, Global};
use std::test::Fail;

static HEADERS: [(&str, &str, Option<(&[Align], &[&str])>); 31] = [
    (
        "| foo | bar |",
        "| --- | --- |",
        Some((&[Align::Plain, Align::Plain], &["foo", "bar"])),
    ),
    (
        "| abc | defghi |",
        ":-: | -----------:",
        Some((&[Align::Center, Align::Right], &["abc", "defghi"])),
    ),
    (
        "| f\\|oo  |",
        "| ------ |",
        Some((&[Align::Plain], &["f|oo"])),
    ),
    (
        "| abc | def |",
        "| --- | --- |",
        Some((&[Align::Plain, Align::Plain], &["abc", "def"])),
    ),
    ("| abc | def |", "| --- |", None),
    (
        "| a | b |",
        "| :-- | --: |",
        Some((&[Align::Left, Align::Right], &["a", "b"])),
    ),
    ("| a |", "| - |", Some((&[Align::Plain], &["a"]))),
    ("a", "| - |", Some((&[Align::Plain], &["a"]))),
    ("a", "-|-", None),
    (
        "a|b",
        "-|-",
        Some((&[Align::Plain, Align::Plain], &["a", "b"])),
    ),
    ("a|b", "- -|-", None),
    ("a", "---", None),
    ("a", "- | - |", None),
    (
        "a | b",
        "- | - |",
        Some((&[Align::Plain, Align::Plain], &["a", "b"])),
    ),
    ("a\\|b", "|-|", Some((&[Align::Plain], &["a|b"]))),
    (
        "`a|b`",
        "|-|-|",
        Some((&[Align::Plain, Align::Plain], &["`a", "b`"])),
    ),
    ("\\\\|a", "|-|", Some((&[Align::Plain], &["\\|a"]))),
    ("", "|-|", Some((&[Align::Plain], &[""]))),
    ("|", "|-|", Some((&[Align::Plain], &[""]))),
    ("||", "|-|", Some((&[Align::Plain], &[""]))),
    ("a", "|:-:|", Some((&[Align::Center], &["a"]))),
    (
        "a | b |c",
        " |-|:-|-:| ",
        Some((&[Align::Plain, Align::Left, Align::Right], &["a", "b", "c"])),
    ),
    ("a", "|::|", None),
    ("a", "|:|", None),
    ("a", "||", None),
    (
        "ä|ö",
        "-|-",
        Some((&[Align::Plain, Align::Plain], &["ä", "ö"])),
    ),
    ("a", "|-\\|", None),
    (
        "| a | b",
        "|-|-",
        Some((&[Align::Plain, Align::Plain], &["a", "b"])),
    ),
    ("a|", "|-|", Some((&[Align::Plain], &["a"]))),
    ("\\|", "|-|", Some((&[Align::Plain], &["|"]))),
    ("|\\", "|-|", Some((&[Align::Plain], &["\\"]))),
];

static ROWS: [(&str, &[&str]); 29] = [
    ("| baz | bim |", &["baz", "bim"]),
    ("bar | baz", &["bar", "baz"]),
    ("| b `\\|` az |", &["b `|` az"]),
    ("| b **\\|** im |", &["b **|** im"]),
    ("| bar | baz |", &["bar", "baz"]),
    ("bar", &["bar", ""]),
    ("| bar |", &["bar", ""]),
    ("| bar | baz | boo |", &["bar", "baz"]),
    ("| 1 |", &["1", ""]),
    ("| 2 | 3 | 4 |", &["2", "3"]),
    ("", &[""]),
    ("", &["", "", ""]),
    ("a|b", &[]),
    ("|", &["", ""]),
    ("||", &["", ""]),
    ("|||", &["", ""]),
    ("a\\|b|c", &["a|b", "c"]),
    ("a\\\\|b|c", &["a\\|b", "c"]),
    ("a\\\\\\|b", &["a\\\\|b"]),
    ("\\|", &["|"]),
    ("|\\|", &["|", ""]),
    ("\\|\\|a", &["||a", ""]),
    (" \ta\t|\tb ", &["a", "b"]),
    ("ä|\\|ö|ü", &["ä", "|ö", "ü"]),
    ("a\\|", &["a|", ""]),
    ("\\", &["\\"]),
    ("\\a|\\b", &["\\a", "\\b"]),
    ("a||b", &["a", "", "b"]),
    ("| a \\| | b", &["a |", "b"]),
];

/// Whether the cells have these texts.
fn are_texts(cells: &[String], texts: &[&str]) -> bool {
    for (cell, text) in cells.iter().zip(texts) {
        if cell.as_str() != *text {
            return false;
        }
    }
    cells.len() == texts.len()
}

/// Whether the header has these alignments and texts, or is none where none is wanted.
fn is_header(found: &Option<Header>, want: Option<(&[Align], &[&str])>) -> bool {
    let Some((aligns, texts)) = want else {
        return found.is_none();
    };
    match found {
        Some(header) => header.aligns.as_slice() == aligns && are_texts(&header.cells, texts),
        None => false,
    }
}

/// The standard's tables, and borders of the two first rows: what makes a table, and its header.
#[test]
fn headers(rt: HostRuntime) -> Result<(), Fail> {
    for &(head, delimiters, want) in &HEADERS {
        assert_eq!(rt;
            begins_table(head, delimiters),
            want.is_some(),
            "at {head} {delimiters}"
        );
        let found = table_header(rt.alloc(), head, delimiters)?;
        assert!(rt; is_header(&found, want), "at {head} {delimiters}");
    }
    Ok(())
}

/// Whether a row has these texts in as many columns.
fn has_texts(alloc: Global, row: &str, texts: &[&str]) -> Result<bool, AllocError> {
    let cells = data_row(alloc, row, texts.len())?;
    Ok(are_texts(&cells, texts))
}

/// The standard's rows, and borders: as many texts as columns.
#[test]
fn data_rows(rt: HostRuntime) -> Result<(), Fail> {
    for &(row, texts) in &ROWS {
        assert!(rt; has_texts(rt.alloc(), row, texts)?, "at {row}");
    }
    Ok(())
}
