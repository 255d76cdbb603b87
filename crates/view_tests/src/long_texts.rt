//! Texts of thousands of lines, whose pieces are long.

use crate::calls::{edit, preview_of};
use crate::steps::{Step, run_on};
use mdtext::Tally;
use mdview::Preview;
use std::alloc::Global;
use std::process::Abort;
use std::test::Fail;

/// Lines that take the place of others.
static CHANGES: [(usize, &str); 9] = [
    (700, "- *another* item"),
    (1, "- i"),
    (2, "- see [x] and *b*"),
    (900, "- [x]: /u"),
    (901, "  - inside"),
    (902, "- c"),
    (1_499, "> quote"),
    (3, ""),
    (4, "- d"),
];

/// Whether the first piece is that of a preview made from nothing.
fn is_made_anew(alloc: Global, preview: &Preview, lines: &[&str]) -> Result<bool, Fail> {
    let fresh = preview_of(alloc, lines)?;
    Ok(preview.piece(0) == fresh.piece(0))
}

/// Puts a line in the place of another, in a preview and in what it was made of.
fn change(
    preview: &mut Preview,
    lines: &mut [&'static str],
    at: usize,
    line: &'static str,
) -> bool {
    if let Some(place) = lines.get_mut(at) {
        *place = line;
    }
    edit(preview, at, 1, &[line], &mut Tally::new()).is_ok()
}

/// A piece of more than 16 KB that is made again, longer, shorter or short, is that of a preview made from nothing.
#[test]
fn a_long_piece_is_made_again(rt: HostRuntime) -> Result<(), Fail> {
    let mut lines = vec![in rt.alloc(); "- item"; 1_500]?;
    let mut preview = preview_of(rt.alloc(), &lines)?;
    for &(at, line) in &CHANGES {
        assert!(rt; change(&mut preview, &mut lines, at, line));
        assert!(rt; is_made_anew(rt.alloc(), &preview, &lines)?, "{line:?}");
    }
    Ok(())
}

static BESIDE: [Step; 3] = [
    Step::TryEdit {
        at: 0,
        del: 0,
        add: &["y", ""],
        fault: None,
    },
    Step::Sizes {
        lines: 2_002,
        units: 2,
    },
    Step::Piece {
        number: 0,
        html: Some("<p>y</p>\n"),
    },
];

/// A short unit comes in front of a long one that stays.
fn check_beside(rt: &impl Abort, alloc: Global) -> Result<(), Fail> {
    let mut code = vec![in alloc; "a line of code"; 2_000]?;
    code[0] = "```";
    run_on(rt, alloc, preview_of(alloc, &code)?, &BESIDE)
}

static CUT: [Step; 6] = [
    // At the second of these it is known where the items of the long list end.
    Step::TryEdit {
        at: 1,
        del: 1,
        add: &["- b"],
        fault: None,
    },
    Step::TryEdit {
        at: 1,
        del: 1,
        add: &["- c"],
        fault: None,
    },
    Step::TryEdit {
        at: 1,
        del: 1,
        add: &["- d"],
        fault: None,
    },
    Step::TryEdit {
        at: 1,
        del: 1_999,
        add: &[],
        fault: None,
    },
    Step::Sizes { lines: 1, units: 1 },
    Step::Piece {
        number: 0,
        html: Some("<ul>\n<li>item</li>\n</ul>\n"),
    },
];

/// A long list is cut to its first item.
fn check_cut(rt: &impl Abort, alloc: Global) -> Result<(), Fail> {
    let items = vec![in alloc; "- item"; 2_000]?;
    run_on(rt, alloc, preview_of(alloc, &items)?, &CUT)
}

/// A short unit beside a long one that stays, and one in the place of a long one.
#[test]
fn a_short_piece_comes_where_a_long_one_is(rt: HostRuntime) -> Result<(), Fail> {
    check_beside(&rt, rt.alloc())?;
    check_cut(&rt, rt.alloc())
}
