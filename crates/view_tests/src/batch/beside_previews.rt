//! The batch way beside the preview: the same HTML, and the same refusals.

use super::calls::{Form, html_of, previewed};
use super::texts::Draws;
use mdbatch::Breaks;
use std::alloc::Global;
use std::process::Abort;
use std::test::Fail;

/// Labels that the texts ask for, and some of which they define.
static PRELUDE: &[&str] = &[
    "[foo]: /p",
    "",
    "[BAR]: /q \"t\"",
    "[baz]: </r>",
    "[ss]: /s",
];

/// Whether both ways end alike: with the same bytes, or with the same refusal.
fn agree(alloc: Global, text: &str, form: Form, prelude: &[&str]) -> Result<bool, Fail> {
    let html = html_of(alloc, text, form, prelude)?;
    let wanted = previewed(alloc, text, form, prelude);
    Ok(html == wanted)
}

fn check_same(rt: &impl Abort, same: bool, number: i32, text: &str) {
    assert!(rt; same, "text {number}: {text}");
}

/// Compares both ways on the next text.
fn check_next(rt: &impl Abort, alloc: Global, draws: &mut Draws, number: i32) -> Result<(), Fail> {
    let text = draws.text(alloc)?;
    let form = draws.form();
    let known = draws.below(PRELUDE.len().saturating_add(1));
    let prelude = PRELUDE.get(..known).unwrap_or(PRELUDE);
    check_same(rt, agree(alloc, &text, form, prelude)?, number, &text);
    Ok(())
}

#[test]
fn agrees_with_the_preview_on_texts_by_chance(rt: HostRuntime) -> Result<(), Fail> {
    let mut draws = Draws { state: 20 };
    for number in 0..3000 {
        check_next(&rt, rt.alloc(), &mut draws, number)?;
    }
    Ok(())
}

/// Worked texts of the two standards' borders: lines, tabs, lists, lazy lines, tables, references, emphasis, raw HTML, breaks.
static WORKED: &[&str] = &[
    "",
    "\n",
    "\tfoo\tbaz\t\tbim\n",
    ">\t\tfoo\n",
    "- foo\n\n\tbar",
    "- foo\n-\n- bar\n",
    "[foo]: /url\n===\n[foo]\n",
    "[foo]: /url\n---\n",
    "> bar\nbaz\n> foo\n",
    "* a\n  > b\n  >\n* c\n",
    "*foo**bar*",
    "[foo][bar][baz]\n\n[baz]: /url1\n[foo]: /url2\n",
    "[ẞ]\n\n[SS]: /url\n",
    "| f\\|oo  |\n| ------ |\n| b `\\|` az |\n",
    "| abc | def |\n| --- |\n",
    "- [ ] foo\n- [x] bar\n",
    "~~Hi~~ Hello, ~there~ world!",
    "&quot; &nope; &#0; &#x41;",
    "<http://a/?b&amp;c>",
    "<b>x</b>",
    "[a](javascript:x)",
    "[a](/ä \"t\")",
    "a  \nb\\\nc",
    "a\nb",
    "a\u{FFFD}\rb",
    "\u{FEFF}# a",
    "a\u{FEFF}",
    "\u{0}",
    "\u{0}\u{FEFF}# a\r\n\u{0}\r",
    "[foo]\n\n[foo]: /a\n[foo]: /b\n",
    "---\n    code\n\n<b>\n\n> ***\n\n[foo]: /a\n\n---\n[foo]\n\n***\n",
    "***\n[foo]: /a\n===\n***\n[foo]\n",
];

static FORMS: [Form; 6] = [
    Form {
        unsafe_html: false,
        breaks: Breaks::Soft,
    },
    Form {
        unsafe_html: true,
        breaks: Breaks::Soft,
    },
    Form {
        unsafe_html: false,
        breaks: Breaks::Hard,
    },
    Form {
        unsafe_html: true,
        breaks: Breaks::Hard,
    },
    Form {
        unsafe_html: false,
        breaks: Breaks::Space,
    },
    Form {
        unsafe_html: true,
        breaks: Breaks::Space,
    },
];

/// Whether both ways end alike in each form.
fn agree_in_all_forms(alloc: Global, text: &str) -> Result<bool, Fail> {
    for &form in &FORMS {
        if !agree(alloc, text, form, PRELUDE)? {
            return Ok(false);
        }
    }
    Ok(true)
}

#[test]
fn agrees_with_the_preview_on_worked_texts(rt: HostRuntime) -> Result<(), Fail> {
    for text in WORKED {
        assert!(rt; agree_in_all_forms(rt.alloc(), text)?, "{text}");
    }
    Ok(())
}
