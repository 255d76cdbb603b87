//! The edits and preludes that are tried.

use crate::changes::{Change, try_changes};
use std::alloc::{AllocError, Global};

/// Lines with a link, a paragraph and a definition.
const LINKED: Change<'static> = Change::Edit {
    at: 0,
    del: 0,
    add: "[foo]\n\nx\n\n[foo]: /a\n",
};

static SCRIPTS: [&[Change<'static>]; 4] = [
    // a definition is changed
    &[
        LINKED,
        Change::Edit {
            at: 4,
            del: 1,
            add: "[foo]: /b\n",
        },
    ],
    // another one is put above it, and taken away again
    &[
        LINKED,
        Change::Edit {
            at: 0,
            del: 0,
            add: "[foo]: /c\n\n",
        },
        Change::Edit {
            at: 0,
            del: 2,
            add: "",
        },
    ],
    // a definition comes in a prelude, one of the text stands before it, and a prelude with another block is refused
    &[
        Change::Edit {
            at: 0,
            del: 0,
            add: "[foo]\n",
        },
        Change::Prelude("[foo]: /p\n"),
        Change::Edit {
            at: 1,
            del: 0,
            add: "\n[foo]: /a\n",
        },
        Change::Prelude(""),
        Change::Prelude("x\n"),
    ],
    // a paragraph's first line is taken away, so that the others are a table
    &[
        Change::Edit {
            at: 0,
            del: 0,
            add: "foo\n| a |\n| - |\n| b |\n",
        },
        Change::Edit {
            at: 0,
            del: 1,
            add: "",
        },
    ],
];

/// Makes each of the scripts of a preview of its own.
pub fn try_scripts(alloc: Global, said: &mut String) -> Result<(), AllocError> {
    for changes in &SCRIPTS {
        try_changes(alloc, changes, said)?;
    }
    try_depth(alloc, said)?;
    try_long_list(alloc, said)
}

/// These lines come into an empty text.
fn begun(lines: &str) -> Change<'_> {
    Change::Edit {
        at: 0,
        del: 0,
        add: lines,
    }
}

/// A definition would make a link in as many spans as may be, so that it is refused.
fn try_depth(alloc: Global, said: &mut String) -> Result<(), AllocError> {
    let opened = "*a ".repeat(alloc, 64)?;
    let closed = " a*".repeat(alloc, 64)?;
    let text = format!(in alloc; "{opened}[k]{closed}\n\nx\n\n")?;
    let changes = [
        begun(&text),
        Change::Edit {
            at: 4,
            del: 0,
            add: "[k]: /u\n",
        },
    ];
    try_changes(alloc, &changes, said)
}

/// An item of a list whose HTML is long changes twice, and then all items but the first go, which has a definition.
fn try_long_list(alloc: Global, said: &mut String) -> Result<(), AllocError> {
    // In HTML each of these has six bytes.
    let marks = "\"".repeat(alloc, 700)?;
    let text = format!(in alloc;
        "- [k]: /u\n- [k] {marks}\n- c {marks}\n- d {marks}\n- e {marks}\n- f {marks}\n"
    )?;
    let changes = [
        begun(&text),
        Change::Edit {
            at: 4,
            del: 1,
            add: "- g\n",
        },
        Change::Edit {
            at: 4,
            del: 1,
            add: "- h\n",
        },
        Change::Edit {
            at: 1,
            del: 5,
            add: "",
        },
    ];
    try_changes(alloc, &changes, said)
}
