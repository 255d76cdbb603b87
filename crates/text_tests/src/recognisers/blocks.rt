//! Borders of each recogniser of block structure. What is wanted is from the standards' texts and another program.

use mdscan::*;
use std::alloc::{AllocError, Global};

static THEMATIC_BREAKS: [(&str, bool); 15] = [
    ("***", true),
    ("---", true),
    ("___", true),
    ("* * *", true),
    ("**\t*  ", true),
    ("- - -\t", true),
    ("**", false),
    ("*-*", false),
    ("***a", false),
    ("_ _ _ _", true),
    ("", false),
    ("+++", false),
    ("*\t*\t*", true),
    (" ***", false),
    ("====", false),
];

/// Marks alone, with spaces and tabs, and too few or mixed ones.
#[test]
fn thematic_breaks(rt: HostRuntime) {
    for &(line, want) in &THEMATIC_BREAKS {
        assert_eq!(rt; thematic(line), want, "at {line}");
    }
}

static ATX_HEADINGS: [(&str, Option<(u8, usize, usize)>); 17] = [
    ("# foo", Some((1, 2, 5))),
    ("####### foo", None),
    ("#\tfoo", Some((1, 2, 5))),
    ("#", Some((1, 1, 1))),
    ("######", Some((6, 6, 6))),
    ("#5 bolt", None),
    ("## foo ##", Some((2, 3, 6))),
    ("# foo#", Some((1, 2, 6))),
    ("# foo \\#", Some((1, 2, 8))),
    ("### ### ###", Some((3, 4, 7))),
    ("## ", Some((2, 3, 3))),
    ("# #", Some((1, 2, 2))),
    ("#  a  #  ", Some((1, 3, 4))),
    ("# a # b", Some((1, 2, 7))),
    ("# a ##b", Some((1, 2, 7))),
    ("## ä ##", Some((2, 3, 5))),
    ("# \t#", Some((1, 3, 3))),
];

/// The level of a heading, and where its content starts and ends.
fn atx_parts(line: &str) -> Option<(u8, usize, usize)> {
    let it = atx(line)?;
    Some((it.level, it.content.start, it.content.end))
}

/// Seven marks, a tab after the marks, closing runs with and without a space before them.
#[test]
fn atx_headings(rt: HostRuntime) {
    for &(line, want) in &ATX_HEADINGS {
        assert_eq!(rt; atx_parts(line), want, "at {line}");
    }
}

static SETEXT_HEADINGS: [(&str, Option<u8>); 10] = [
    ("===", Some(1)),
    ("=", Some(1)),
    ("---\t ", Some(2)),
    ("--", Some(2)),
    ("= =", None),
    ("=-", None),
    ("", None),
    ("=== a", None),
    ("===\t", Some(1)),
    ("-\t-", None),
];

/// Runs of one mark, and what is none.
#[test]
fn setext_headings(rt: HostRuntime) {
    for &(line, want) in &SETEXT_HEADINGS {
        assert_eq!(rt; setext(line), want, "at {line}");
    }
}

static FENCES: [(&str, Option<(u8, usize, usize, usize)>); 10] = [
    ("```", Some((b'`', 3, 3, 3))),
    ("``", None),
    ("~~~~  ruby startline=3 $%@#$", Some((b'~', 4, 6, 28))),
    ("``` aa `", None),
    ("~~~ aa ` ~~~", Some((b'~', 3, 4, 12))),
    ("```\t rust \t", Some((b'`', 3, 5, 9))),
    ("````", Some((b'`', 4, 4, 4))),
    ("~~", None),
    ("``~", None),
    ("~~~ä", Some((b'~', 3, 3, 5))),
];

/// The mark of a fence, how many there are, and where its info string starts and ends.
fn fence_parts(line: &str) -> Option<(u8, usize, usize, usize)> {
    let it = fence(line)?;
    Some((it.mark, it.length, it.info.start, it.info.end))
}

/// Two and three marks, and a backtick in the info string of either kind.
#[test]
fn fences(rt: HostRuntime) {
    for &(line, want) in &FENCES {
        assert_eq!(rt; fence_parts(line), want, "at {line}");
    }
}

static FENCE_ENDS: [(&str, u8, usize, bool); 8] = [
    ("```", b'`', 3, true),
    ("``", b'`', 3, false),
    ("````  \t", b'`', 3, true),
    ("``` a", b'`', 3, false),
    ("~~~", b'`', 3, false),
    ("~~~", b'~', 4, false),
    ("~~~~", b'~', 4, true),
    ("", b'`', 3, false),
];

/// Shorter, equal and longer runs, other marks, and something behind.
#[test]
fn fence_ends(rt: HostRuntime) {
    for &(line, mark, length, want) in &FENCE_ENDS {
        assert_eq!(rt; fence_end(line, mark, length), want, "at {line}");
    }
}

static HTML_STARTS: [(&str, Option<u8>); 42] = [
    ("<PRE", Some(1)),
    ("</pre>", Some(7)),
    ("<b>x", None),
    ("<pre/>", None),
    ("<pre", Some(1)),
    ("<pre>", Some(1)),
    ("<preset>", Some(7)),
    ("<script src=a>", Some(1)),
    ("<!-- a", Some(2)),
    ("<!-", None),
    ("<?php", Some(3)),
    ("<!DOCTYPE", Some(4)),
    ("<!1", None),
    ("<![CDATA[", Some(5)),
    ("<![cdata[", None),
    ("<search", Some(6)),
    ("<source", None),
    ("<source>", Some(7)),
    ("</div", Some(6)),
    ("<div/>", Some(6)),
    ("<div/ >", None),
    ("<div/a", None),
    ("<a href=\"x\">", Some(7)),
    ("<a href=\"x\"> \t", Some(7)),
    ("<a href=\"x\">b", None),
    ("</ins >", Some(7)),
    ("<del>", Some(7)),
    ("<textarea", Some(1)),
    ("<Table>", Some(6)),
    ("<h7>", Some(7)),
    ("<h6 ", Some(6)),
    ("a<b>", None),
    ("", None),
    ("<pre-x>", Some(7)),
    ("<style", Some(1)),
    ("</style", None),
    ("</script >", Some(7)),
    ("<a b=c/>", Some(7)),
    ("<a b = >", None),
    ("<a\tb>", Some(7)),
    ("<hr/", None),
    ("<hr/>", Some(6)),
];

/// Each kind, the first that fits, and names that are on no list.
#[test]
fn html_starts(rt: HostRuntime) {
    for &(line, want) in &HTML_STARTS {
        assert_eq!(rt; html_start(line), want, "at {line}");
    }
}

static HTML_ENDS: [(u8, &str, bool); 18] = [
    (1, "a</PRE>", true),
    (1, "</pre", false),
    (1, "</pre >", false),
    (1, "x</TextArea>y", true),
    (1, "</prex>", false),
    (2, "a -->", true),
    (2, "--", false),
    (3, "?>", true),
    (3, "? >", false),
    (4, "a>", true),
    (4, "a", false),
    (5, "]]>", true),
    (5, "]>", false),
    (5, "]]]>", true),
    (6, "</div>", false),
    (7, ">", false),
    (0, "-->", false),
    (9, "", false),
];

/// The end of each kind; kinds 6, 7 and others have none on a line.
#[test]
fn html_ends(rt: HostRuntime) {
    for &(kind, line, want) in &HTML_ENDS {
        assert_eq!(rt; html_end(kind, line), want, "at {line}");
    }
}

static QUOTE_MARKERS: [(&str, bool); 6] = [
    (">", true),
    ("> a", true),
    (">a", true),
    ("a>", false),
    ("", false),
    (" >", false),
];

/// With and without something behind.
#[test]
fn quote_markers(rt: HostRuntime) {
    for &(line, want) in &QUOTE_MARKERS {
        assert_eq!(rt; quote_marker(line), want, "at {line}");
    }
}

static LIST_MARKERS: [(&str, Option<(u8, Option<u32>, usize)>); 17] = [
    ("10) a", Some((b')', Some(10), 3))),
    ("1234567890. a", None),
    ("123456789. a", Some((b'.', Some(123456789), 10))),
    ("- a", Some((b'-', None, 1))),
    ("-a", None),
    ("-", Some((b'-', None, 1))),
    ("+\tb", Some((b'+', None, 1))),
    ("* ", Some((b'*', None, 1))),
    ("1.", Some((b'.', Some(1), 2))),
    ("1.a", None),
    ("1", None),
    ("a.", None),
    ("007) x", Some((b')', Some(7), 4))),
    ("-1. a", None),
    (". a", None),
    ("0. x", Some((b'.', Some(0), 2))),
    ("1] a", None),
];

/// The mark of an item, its number and its width.
fn marker_parts(line: &str) -> Option<(u8, Option<u32>, usize)> {
    let it = list_marker(line)?;
    Some((it.mark, it.start, it.width))
}

/// Bullets and numbers of nine and of ten digits, with and without something behind.
#[test]
fn list_markers(rt: HostRuntime) {
    for &(line, want) in &LIST_MARKERS {
        assert_eq!(rt; marker_parts(line), want, "at {line}");
    }
}

static DELIMITER_ROWS: [(&str, Option<usize>); 19] = [
    ("| - |", Some(1)),
    ("|-|-|", Some(2)),
    ("-|-", Some(2)),
    ("- - |", None),
    (":-:", None),
    ("|:-:|", Some(1)),
    ("| :-- | --: |", Some(2)),
    ("|", None),
    ("||", None),
    ("|a|", None),
    ("| -- : |", None),
    ("-", None),
    ("|---|", Some(1)),
    ("| - ", Some(1)),
    ("a|-", None),
    ("\\|-", None),
    ("|:|", None),
    ("--|", Some(1)),
    (":--|--:|:-:|-", Some(4)),
];

/// A bar is needed, hyphens in each cell, and colons at the ends alone.
#[test]
fn delimiter_rows(rt: HostRuntime) {
    for &(line, want) in &DELIMITER_ROWS {
        assert_eq!(rt; delimiter_row(line), want, "at {line}");
    }
}

static ALIGNMENTS: [(&str, usize, Align); 15] = [
    ("| - |", 0, Align::Plain),
    ("|-|-|", 0, Align::Plain),
    ("|-|-|", 1, Align::Plain),
    ("-|-", 0, Align::Plain),
    ("-|-", 1, Align::Plain),
    ("|:-:|", 0, Align::Center),
    ("| :-- | --: |", 0, Align::Left),
    ("| :-- | --: |", 1, Align::Right),
    ("|---|", 0, Align::Plain),
    ("| - ", 0, Align::Plain),
    ("--|", 0, Align::Plain),
    (":--|--:|:-:|-", 0, Align::Left),
    (":--|--:|:-:|-", 1, Align::Right),
    (":--|--:|:-:|-", 2, Align::Center),
    (":--|--:|:-:|-", 3, Align::Plain),
];

/// The alignment of a column, if there is one.
fn column_align(line: &str, column: usize) -> Option<Align> {
    match delimiter_row(line) {
        Some(columns) if column < columns => Some(align_at(line, column)),
        _ => None,
    }
}

/// A colon at either end, at both and at none.
#[test]
fn alignments(rt: HostRuntime) {
    for &(line, column, want) in &ALIGNMENTS {
        let found = column_align(line, column);
        assert_eq!(rt; found, Some(want), "at {line}, {column}");
    }
}

static DELIMITERS: [(&str, Align); 8] = [
    ("-", Align::Plain),
    ("---", Align::Plain),
    (":-", Align::Left),
    (":---", Align::Left),
    ("-:", Align::Right),
    ("--:", Align::Right),
    (":-:", Align::Center),
    (":--:", Align::Center),
];

/// One cell of a delimiter row by itself.
#[test]
fn delimiters(rt: HostRuntime) {
    for &(cell, want) in &DELIMITERS {
        assert_eq!(rt; align_by_colons(cell), want, "at {cell}");
    }
}

static TASKS: [(&str, Option<(bool, usize)>); 15] = [
    ("[ ] foo", Some((false, 4))),
    ("[x] bar", Some((true, 4))),
    ("[X]\tbar", Some((true, 4))),
    ("[\t] a", Some((false, 4))),
    ("[ ]", None),
    ("[ ] ", None),
    ("[x]a", None),
    ("[y] a", None),
    ("[ ] \n a", None),
    ("[ ]  \t a", Some((false, 7))),
    ("[x]\nb", None),
    ("[] a", None),
    ("[  ] a", None),
    ("x[ ] a", None),
    ("[ ] ä", Some((false, 4))),
];

/// Whether a task is ticked, and where the text behind it begins.
fn task_parts(text: &str) -> Option<(bool, usize)> {
    let it = task(text)?;
    Some((it.ticked, it.after))
}

/// Tabs in and after the brackets, and nothing behind.
#[test]
fn tasks(rt: HostRuntime) {
    for &(text, want) in &TASKS {
        assert_eq!(rt; task_parts(text), want, "at {text}");
    }
}

static ROW_CELLS: [(&str, &[(usize, usize)]); 18] = [
    ("| a | b |", &[(2, 3), (6, 7)]),
    ("a|b", &[(0, 1), (2, 3)]),
    ("| f\\|oo  |", &[(2, 7)]),
    ("|", &[(1, 1)]),
    ("||", &[(1, 1)]),
    ("| |", &[(2, 2)]),
    ("a", &[(0, 1)]),
    ("", &[(0, 0)]),
    ("  | a |  ", &[(4, 5)]),
    ("|a\\|", &[(1, 4)]),
    ("a\\|b|c", &[(0, 4), (5, 6)]),
    ("\\|", &[(0, 2)]),
    ("|||", &[(1, 1), (2, 2)]),
    ("| a | b \\|", &[(2, 3), (6, 10)]),
    ("ä|ö", &[(0, 2), (3, 5)]),
    ("|  a\t|\tb", &[(3, 4), (7, 8)]),
    ("a|b|", &[(0, 1), (2, 3)]),
    (" \\| a", &[(1, 5)]),
];

fn are_cells(found: &[Span], want: &[(usize, usize)]) -> bool {
    for (cell, &(start, end)) in found.iter().zip(want) {
        if cell.start != start || cell.end != end {
            return false;
        }
    }
    found.len() == want.len()
}

/// Whether a row has these cells.
fn has_cells(alloc: Global, row: &str, want: &[(usize, usize)]) -> Result<bool, AllocError> {
    let found = cells(alloc, row)?;
    Ok(cell_count(row) == want.len() && are_cells(&found, want))
}

/// Bars at the ends and after backslashes.
#[test]
fn row_cells(rt: HostRuntime) -> Result<(), AllocError> {
    for &(row, want) in &ROW_CELLS {
        assert!(rt; has_cells(rt.alloc(), row, want)?, "at {row}");
    }
    Ok(())
}
