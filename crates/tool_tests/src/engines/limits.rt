//! Limits other than the usual ones, and the deepest texts that they allow.

ghost use Rattle.std.specs.Prelude.{◌≤◌};
ghost use Rattle.htmlspec.specs.Limits.{HasLimits};

use crate::options::SOFT;
use crate::runs::{Engine, WIDE, run_of, words_read};
use mdtool::Options;
use std::alloc::{AllocError, Global};
use std::process::Abort;
use std::test::Fail;

fn with_limits(max_containers: usize, max_spans: usize) -> Options
    requires some_containers { 1 ≤ max_containers }
    requires few_containers { max_containers ≤ 256 }
    requires some_spans { 1 ≤ max_spans }
    requires few_spans { max_spans ≤ 256 }
    ensures { HasLimits result }
{
    Options {
        max_containers,
        max_spans,
        ..SOFT
    }
}

fn check(
    rt: &impl Abort,
    alloc: Global,
    text: &str,
    options: Options,
    want: &str,
    want_end: &str,
) -> Result<(), AllocError>
    requires { HasLimits options }
{
    let run = run_of(alloc, Engine::Convert, text.as_bytes(), WIDE, options)?;
    assert!(rt; run.wrote(want), "{want_end}");
    assert!(rt; run.ended(want_end), "{want_end}");
    Ok(())
}

#[test]
fn texts_meet_their_limits(rt: HostRuntime) -> Result<(), Fail> {
    let alloc = rt.alloc();
    let nested = "Err(Refused(NestedTooDeep { line: 0 }))";
    let deep = "Err(Refused(InlineTooDeep { line: 0 }))";
    let two = "<blockquote>\n<blockquote>\n<p>a</p>\n</blockquote>\n</blockquote>\n";
    check(&rt, alloc, "> > a", with_limits(2, 64), two, "Ok(())")?;
    check(&rt, alloc, "> > > a", with_limits(2, 64), "", nested)?;
    check(&rt, alloc, "- > a", with_limits(1, 64), "", nested)?;
    let beside = "<p><em>a</em> <em>b</em></p>\n";
    check(&rt, alloc, "*a* *b*", with_limits(64, 1), beside, "Ok(())")?;
    check(&rt, alloc, "*[a](b)*", with_limits(64, 1), "", deep)?;
    Ok(())
}

/// Adds a part so many times.
fn add_times(text: &mut String, part: &str, count: usize) -> Result<(), AllocError> {
    for _ in 0..count {
        text.push_str(part)?;
    }
    Ok(())
}

/// Adds so many spans in one another.
fn add_spans(text: &mut String, count: usize) -> Result<(), AllocError> {
    add_times(text, "*a ", count)?;
    text.push_str("x")?;
    add_times(text, " a*", count)
}

/// Adds the HTML of 256 spans in one another.
fn add_spans_html(html: &mut String) -> Result<(), AllocError> {
    add_times(html, "<em>a ", 256)?;
    html.push_str("x")?;
    add_times(html, " a</em>", 256)
}

/// Adds the HTML of 256 spans in 256 block quotes.
fn add_quotes_html(html: &mut String) -> Result<(), AllocError> {
    add_times(html, "<blockquote>\n", 256)?;
    html.push_str("<p>")?;
    add_spans_html(html)?;
    html.push_str("</p>\n")?;
    add_times(html, "</blockquote>\n", 256)
}

/// Adds the HTML of 256 spans in 256 items.
fn add_items_html(html: &mut String) -> Result<(), AllocError> {
    add_times(html, "<ul>\n<li>\n", 255)?;
    html.push_str("<ul>\n<li>")?;
    add_spans_html(html)?;
    add_times(html, "</li>\n</ul>\n", 256)
}

/// So many spans behind so many of a mark and a space.
fn line_of(alloc: Global, mark: &str, marks: usize, spans: usize) -> Result<String, AllocError> {
    let mut line = String::new(alloc);
    add_times(&mut line, mark, marks)?;
    add_spans(&mut line, spans)?;
    Ok(line)
}

fn quotes_html(alloc: Global) -> Result<String, AllocError> {
    let mut html = String::new(alloc);
    add_quotes_html(&mut html)?;
    Ok(html)
}

fn items_html(alloc: Global) -> Result<String, AllocError> {
    let mut html = String::new(alloc);
    add_items_html(&mut html)?;
    Ok(html)
}

/// Converts spans behind marks, with the largest limits.
fn check_deepest(
    rt: &impl Abort,
    alloc: Global,
    line: &str,
    want: &str,
    want_end: &str,
) -> Result<(), AllocError> {
    check(rt, alloc, line, with_limits(256, 256), want, want_end)
}

#[test]
fn the_deepest_texts_are_converted(rt: HostRuntime) -> Result<(), Fail> {
    let alloc = rt.alloc();
    let nested = "Err(Refused(NestedTooDeep { line: 0 }))";
    let deep = "Err(Refused(InlineTooDeep { line: 0 }))";
    let quotes = line_of(alloc, ">", 256, 256)?;
    check_deepest(&rt, alloc, &quotes, &quotes_html(alloc)?, "Ok(())")?;
    check_deepest(&rt, alloc, &line_of(alloc, ">", 257, 256)?, "", nested)?;
    let items = line_of(alloc, "- ", 256, 256)?;
    check_deepest(&rt, alloc, &items, &items_html(alloc)?, "Ok(())")?;
    check_deepest(&rt, alloc, &line_of(alloc, "", 0, 257)?, "", deep)?;
    Ok(())
}

/// Edits by which the deepest units are made, give way to others, are kept, and one text of them is copied where
/// another is read again; the last one is refused.
fn deep_edits(alloc: Global) -> Result<String, AllocError> {
    let mut script = String::from_str(alloc, "edit 0 0 1\n")?;
    add_times(&mut script, ">", 256)?;
    add_spans(&mut script, 256)?;
    script.push_str("\nedit 0 1 1\n")?;
    add_times(&mut script, "- ", 256)?;
    add_spans(&mut script, 256)?;
    script.push_str("\nedit 0 1 3\n> ")?;
    add_spans(&mut script, 256)?;
    script.push_str("\n>\n> [k]\nedit 3 0 2\n\n[k]: /u\nedit 0 0 1\n")?;
    add_times(&mut script, ">", 257)?;
    script.push_str("\n")?;
    Ok(script)
}

/// The HTML of a quote with the deepest spans and this paragraph.
fn spans_and(alloc: Global, paragraph: &str) -> Result<String, AllocError> {
    let mut html = String::from_str(alloc, "<blockquote>\n<p>")?;
    add_spans_html(&mut html)?;
    html.push_str("</p>\n<p>")?;
    html.push_str(paragraph)?;
    html.push_str("</p>\n</blockquote>\n")?;
    Ok(html)
}

/// Adds the reply of an edit, and a piece.
fn add_reply(replies: &mut String, reply: &str, html: &str) -> Result<(), AllocError> {
    write!(replies, "{reply}\npiece 0 {}\n{html}", html.len())
}

fn deep_replies(alloc: Global) -> Result<String, AllocError> {
    let mut replies = String::new(alloc);
    add_reply(&mut replies, "ok 0 0 1 0", &quotes_html(alloc)?)?;
    add_reply(&mut replies, "ok 0 1 1 0", &items_html(alloc)?)?;
    add_reply(&mut replies, "ok 0 1 1 0", &spans_and(alloc, "[k]")?)?;
    let linked = "<a href=\"/u\">k</a>";
    add_reply(&mut replies, "ok 0 1 2 0", &spans_and(alloc, linked)?)?;
    replies.push_str("piece 1 0\nrefused NestedTooDeep 0\n")?;
    Ok(replies)
}

#[test]
fn the_deepest_texts_are_edited(rt: HostRuntime) -> Result<(), Fail> {
    let script = deep_edits(rt.alloc())?;
    let replies = deep_replies(rt.alloc())?;
    let limits = with_limits(256, 256);
    let run = run_of(rt.alloc(), Engine::Serve, script.as_bytes(), WIDE, limits)?;
    assert!(rt; run.ended("Ok(())"));
    assert!(rt; run.wrote(replies.as_str()));
    Ok(())
}

/// What a word says of the limit of containers, or that the words are not understood.
fn check_limit(
    rt: &impl Abort,
    alloc: Global,
    word: &str,
    want: Option<usize>,
) -> Result<(), AllocError> {
    let containers = match words_read(alloc, &["mdrender", "--max-containers", word]) {
        Ok(read) => Some(read.options.max_containers),
        Err(_) => None,
    };
    assert_eq!(rt; containers, want, "{word}");
    let spans = match words_read(alloc, &["mdpreview", "--max-spans", word]) {
        Ok(read) => Some(read.options.max_spans),
        Err(_) => None,
    };
    assert_eq!(rt; spans, want, "{word}");
    Ok(())
}

static LIMITS: [(&str, Option<usize>); 14] = [
    ("1", Some(1)),
    ("007", Some(7)),
    ("256", Some(256)),
    ("0000000000000000000256", Some(256)),
    ("0", None),
    ("257", None),
    ("10000000000", None),
    ("", None),
    ("+5", None),
    ("-5", None),
    (" 5", None),
    ("5 ", None),
    ("1.0", None),
    ("0x5", None),
];

#[test]
fn limits_are_whole_numbers_to_256(rt: HostRuntime) -> Result<(), Fail> {
    let alloc = rt.alloc();
    for &(word, want) in &LIMITS {
        check_limit(&rt, alloc, word, want)?;
    }
    let twice = ["mdrender", "--max-spans", "5", "--max-spans", "5"];
    assert!(rt; words_read(alloc, &twice).is_err());
    let none = words_read(alloc, &["mdrender"]).map_err(|_| "not understood")?;
    assert_eq!(rt;
        (none.options.max_containers, none.options.max_spans),
        (64, 64)
    );
    Ok(())
}
