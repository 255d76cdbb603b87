//! Columns and indentation, with tabs.

use mdtext::Cursor;

/// Skips so many columns, where the indentation has them.
fn skip(cursor: &mut Cursor, columns: usize) {
    if cursor.indent() >= columns {
        cursor.skip_columns(columns);
    }
}

/// Whether this is the indentation, so much of a tab is left, and this text stands behind that.
fn is_at(cursor: &Cursor, indent: usize, left: usize, rest: &str) -> bool {
    cursor.indent() == indent && cursor.left() == left && cursor.rest() == rest
}

#[test]
fn marker_and_tabs(rt: HostRuntime) {
    let mut cursor = Cursor::new(">\t\tfoo");
    cursor.skip_mark(1);
    assert!(rt; is_at(&cursor, 7, 0, "\t\tfoo"));
    skip(&mut cursor, 1);
    assert!(rt; is_at(&cursor, 6, 2, "\tfoo"));
    skip(&mut cursor, 4);
    assert!(rt; is_at(&cursor, 2, 2, "foo"));
}

static INDENTS: [(&str, usize); 8] = [
    ("", 0),
    ("a", 0),
    ("  a", 2),
    ("\ta", 4),
    (" \ta", 4),
    ("    \ta", 8),
    (" \t \t", 8),
    ("\u{A0}a", 0),
];

#[test]
fn indentation(rt: HostRuntime) {
    for &(line, want) in &INDENTS {
        assert_eq!(rt; Cursor::new(line).indent(), want, "{line:?}");
    }
}
