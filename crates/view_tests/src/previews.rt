//! What no clause says: that calls succeed with ample memory, and what they answer then.

use crate::steps::{Step, run};
use mdview::EditFault;
use std::test::Fail;

static A_TEXT: [Step; 10] = [
    Step::Edit {
        at: 0,
        del: 0,
        add: &["# a", "", "b", "c"],
        says: "0 0 2 []: 0 <h1>a</h1>\n1 <p>b\nc</p>\n",
    },
    Step::Sizes { lines: 4, units: 2 },
    Step::Line {
        number: 3,
        line: Some("c"),
    },
    Step::Line {
        number: 4,
        line: None,
    },
    Step::Piece {
        number: 1,
        html: Some("<p>b\nc</p>\n"),
    },
    Step::Counted {
        lines: (4, 4),
        inlines: (2, 2),
    },
    Step::TryEdit {
        at: 5,
        del: 0,
        add: &["# a", "", "b", "c"],
        fault: Some(EditFault::OutOfRange { lines: 4 }),
    },
    Step::TryEdit {
        at: 0,
        del: 0,
        add: &["a", "b\nc"],
        fault: Some(EditFault::BreakInLine { index: 1 }),
    },
    Step::Counted {
        lines: (4, 4),
        inlines: (2, 2),
    },
    Step::Pieces {
        html: "<h1>a</h1>\n<p>b\nc</p>\n",
    },
];

#[test]
fn previews_a_text(rt: HostRuntime) -> Result<(), Fail> {
    run(&rt, rt.alloc(), &A_TEXT)
}

static LIMITS: [Step; 5] = [
    Step::TryBlanks {
        len: 1_000_001,
        fault: Some(EditFault::TooManyLines),
    },
    // Lines of 16,776,960 and 254 bytes fit, with one for each line's end; one byte more does not.
    Step::TryLetters {
        at: 0,
        len: 16_776_960,
        fault: None,
    },
    Step::TryLetters {
        at: 1,
        len: 255,
        fault: Some(EditFault::TooLarge),
    },
    Step::TryLetters {
        at: 1,
        len: 254,
        fault: None,
    },
    Step::Sizes { lines: 2, units: 1 },
];

#[test]
fn keeps_the_limits(rt: HostRuntime) -> Result<(), Fail> {
    run(&rt, rt.alloc(), &LIMITS)
}

static PATCHES: [Step; 4] = [
    Step::Begin {
        lines: &["[a]", "", "b", "", "c", "", "d [a]", "", "e"],
    },
    Step::Edit {
        at: 4,
        del: 1,
        add: &["f", "", "g"],
        says: "1 2 3 []: 1 <p>b</p>\n2 <p>f</p>\n3 <p>g</p>\n",
    },
    Step::Edit {
        at: 4,
        del: 1,
        add: &["# f", "[a]: /b"],
        says: "1 2 3 [0, 5]: 0 <p><a href=\"/b\">a</a></p>\n1 <p>b</p>\n2 <h1>f</h1>\n3 5 <p>d <a href=\"/b\">a</a></p>\n",
    },
    Step::Edit {
        at: 0,
        del: 2,
        add: &[],
        says: "0 1 0 []:",
    },
];

#[test]
fn lends_the_pieces_of_a_patch_in_order(rt: HostRuntime) -> Result<(), Fail> {
    run(&rt, rt.alloc(), &PATCHES)
}

static WALKS: [Step; 4] = [
    Step::Begin {
        lines: &["# a", "", "- b *c*"],
    },
    // A heading with its text.
    Step::Nodes {
        number: 0,
        count: Some(2),
    },
    // A list, its item, the paragraph, its text, the emphasis and what lies in that.
    Step::Nodes {
        number: 1,
        count: Some(6),
    },
    Step::Nodes {
        number: 2,
        count: None,
    },
];

#[test]
fn walks_over_its_units(rt: HostRuntime) -> Result<(), Fail> {
    run(&rt, rt.alloc(), &WALKS)
}

static STRETCH: [Step; 3] = [
    Step::Begin {
        lines: &["[foo]", "", "x", "", "[foo]: /a"],
    },
    Step::Edit {
        at: 4,
        del: 1,
        add: &["[foo]: /b"],
        says: "1 2 2 [0]: 0 <p><a href=\"/b\">foo</a></p>\n1 <p>x</p>\n2 ",
    },
    // From line 2 to the end there are three lines; the text of the paragraph before asked for the label.
    Step::Counted {
        lines: (1, 4),
        inlines: (1, 2),
    },
];

#[test]
fn an_edit_reads_its_stretch(rt: HostRuntime) -> Result<(), Fail> {
    run(&rt, rt.alloc(), &STRETCH)
}

static TEXTS_THAT_STAY: [Step; 3] = [
    Step::Begin {
        lines: &["> [foo]", ">", "> b", ">", "> *c*"],
    },
    Step::Edit {
        at: 2,
        del: 1,
        add: &["> B", ">", "> [foo]: /a"],
        says: "0 1 1 []: 0 <blockquote>\n<p><a href=\"/a\">foo</a></p>\n<p>B</p>\n<p><em>c</em></p>\n</blockquote>\n",
    },
    Step::Counted {
        lines: (7, 7),
        inlines: (3, 3),
    },
];

/// A text that stays counts as read, in front of the edit and behind it; where it asked for a label that leads elsewhere then it is read.
#[test]
fn texts_that_stay_count(rt: HostRuntime) -> Result<(), Fail> {
    run(&rt, rt.alloc(), &TEXTS_THAT_STAY)
}

static ITEMS_IN_FRONT: [Step; 3] = [
    Step::Begin {
        lines: &["- a", "- b", "- c", "- d", "- e"],
    },
    Step::TryEdit {
        at: 3,
        del: 1,
        add: &["- D"],
        fault: None,
    },
    Step::Counted {
        lines: (5, 5),
        inlines: (4, 4),
    },
];

/// In a list the lines and the texts in front of the item that is read again count as read.
#[test]
fn items_in_front_count(rt: HostRuntime) -> Result<(), Fail> {
    run(&rt, rt.alloc(), &ITEMS_IN_FRONT)
}

static FIRST_DEFINITION: [Step; 5] = [
    Step::Begin {
        lines: &["[foo]", "", "x", "", "[foo]: /a"],
    },
    Step::Edit {
        at: 0,
        del: 0,
        add: &["[foo]: /c", ""],
        says: "0 0 1 [1]: 0 1 <p><a href=\"/c\">foo</a></p>\n",
    },
    Step::Counted {
        lines: (0, u64::MAX),
        inlines: (0, 1),
    },
    Step::Edit {
        at: 0,
        del: 2,
        add: &[],
        says: "0 1 0 [0]: 0 <p><a href=\"/a\">foo</a></p>\n",
    },
    Step::Counted {
        lines: (0, 1),
        inlines: (0, u64::MAX),
    },
];

#[test]
fn the_first_definition_counts(rt: HostRuntime) -> Result<(), Fail> {
    run(&rt, rt.alloc(), &FIRST_DEFINITION)
}

static A_PRELUDE: [Step; 10] = [
    Step::Begin {
        lines: &["[foo]", "", "[bar]", "", "x [baz]"],
    },
    Step::SetPrelude {
        lines: &["[foo]: /p", "[Bar]: /q", "[foo]: /r"],
        says: "0 0 0 [0, 1]: 0 <p><a href=\"/p\">foo</a></p>\n1 <p><a href=\"/q\">bar</a></p>\n",
    },
    Step::Counted {
        lines: (3, 3),
        inlines: (2, 2),
    },
    Step::Piece {
        number: 0,
        html: Some("<p><a href=\"/p\">foo</a></p>\n"),
    },
    Step::Prelude {
        lines: &["[foo]: /p", "[Bar]: /q", "[foo]: /r"],
    },
    Step::Edit {
        at: 5,
        del: 0,
        add: &["", "[foo]: /t"],
        says: "2 1 2 [0]: 0 <p><a href=\"/t\">foo</a></p>\n2 <p>x [baz]</p>\n3 ",
    },
    // What the text defines stays, and what leads where it led is not read again.
    Step::SetPrelude {
        lines: &["[foo]: /u", "[bar]: /q"],
        says: "0 0 0 []:",
    },
    Step::Counted {
        lines: (2, 2),
        inlines: (0, 0),
    },
    Step::Piece {
        number: 0,
        html: Some("<p><a href=\"/t\">foo</a></p>\n"),
    },
    Step::Edit {
        at: 5,
        del: 2,
        add: &[],
        says: "2 2 1 [0]: 0 <p><a href=\"/u\">foo</a></p>\n2 <p>x [baz]</p>\n",
    },
];

#[test]
fn a_prelude_stands_below_the_text(rt: HostRuntime) -> Result<(), Fail> {
    run(&rt, rt.alloc(), &A_PRELUDE)
}

static REFUSED_PRELUDES: [Step; 11] = [
    Step::Begin {
        lines: &["[foo]", "", "[bar]"],
    },
    Step::TryPrelude {
        lines: &["[foo]: /p"],
        fault: None,
    },
    Step::CountAnew,
    Step::TryBlankPrelude {
        len: 1_000_001,
        fault: Some(EditFault::TooManyLines),
    },
    Step::TryPrelude {
        lines: &["[bar]: /q", "a\rb"],
        fault: Some(EditFault::BreakInLine { index: 1 }),
    },
    Step::Counted {
        lines: (0, 0),
        inlines: (0, 0),
    },
    Step::TryPrelude {
        lines: &["[bar]: /q", "", "---"],
        fault: Some(EditFault::NotDefinitions { line: 2 }),
    },
    Step::Counted {
        lines: (3, 3),
        inlines: (0, 0),
    },
    Step::Prelude {
        lines: &["[foo]: /p"],
    },
    Step::Piece {
        number: 0,
        html: Some("<p><a href=\"/p\">foo</a></p>\n"),
    },
    Step::Piece {
        number: 1,
        html: Some("<p>[bar]</p>\n"),
    },
];

#[test]
fn a_refused_prelude_is_not_held(rt: HostRuntime) -> Result<(), Fail> {
    run(&rt, rt.alloc(), &REFUSED_PRELUDES)
}

static NUMBERED: [Step; 10] = [
    Step::Begin {
        lines: &["", "a *b*", "", "# [c]", "[d]: /u"],
    },
    Step::Sizes { lines: 5, units: 3 },
    Step::FirstLine {
        number: 0,
        line: Some(1),
    },
    Step::FirstLine {
        number: 1,
        line: Some(3),
    },
    Step::FirstLine {
        number: 2,
        line: Some(4),
    },
    Step::FirstLine {
        number: 3,
        line: None,
    },
    Step::Definitions {
        number: 2,
        count: Some(1),
    },
    Step::Definitions {
        number: 3,
        count: None,
    },
    Step::Asked {
        number: 1,
        labels: Some(&[1]),
    },
    Step::Asked {
        number: 3,
        labels: None,
    },
];

#[test]
fn units_are_told_by_their_numbers(rt: HostRuntime) -> Result<(), Fail> {
    run(&rt, rt.alloc(), &NUMBERED)
}
