//! Worked texts with their HTML, seen through `serve`: CommonMark 0.31.2 and GFM 0.29, and our own profile of them.

use crate::options::SOFT;
use crate::runs::{Engine, WIDE, run_of};
use mdtext::lines_of;
use mdtool::Options;
use std::alloc::{AllocError, Global};
use std::process::Abort;
use std::test::Fail;

/// Blocks (CommonMark 4 and 5; GFM Tables (extension), GFM Task list items (extension)).
static BLOCKS: [(&str, &str); 16] = [
    (
        "\tfoo\tbaz\t\tbim\n",
        "<pre><code>foo\tbaz\t\tbim\n</code></pre>\n",
    ),
    (
        ">\t\tfoo\n",
        "<blockquote>\n<pre><code>  foo\n</code></pre>\n</blockquote>\n",
    ),
    (
        "- foo\n\n\tbar",
        "<ul>\n<li>\n<p>foo</p>\n<p>bar</p>\n</li>\n</ul>\n",
    ),
    (
        "- foo\n-\n- bar\n",
        "<ul>\n<li>foo</li>\n<li></li>\n<li>bar</li>\n</ul>\n",
    ),
    (
        "> bar\nbaz\n> foo\n",
        "<blockquote>\n<p>bar\nbaz\nfoo</p>\n</blockquote>\n",
    ),
    (
        "* a\n  > b\n  >\n* c\n",
        "<ul>\n<li>a\n<blockquote>\n<p>b</p>\n</blockquote>\n</li>\n<li>c</li>\n</ul>\n",
    ),
    (
        "3. a\n4. b\n",
        "<ol start=\"3\">\n<li>a</li>\n<li>b</li>\n</ol>\n",
    ),
    (
        "> foo\n---\n",
        "<blockquote>\n<p>foo</p>\n</blockquote>\n<hr />\n",
    ),
    (
        "> foo\nbar\n===\n",
        "<blockquote>\n<p>foo\nbar\n===</p>\n</blockquote>\n",
    ),
    (
        "> - foo\n    ===\n",
        "<blockquote>\n<ul>\n<li>foo\n===</li>\n</ul>\n</blockquote>\n",
    ),
    (
        "- a\n- ```\n  b\n\n\n  ```\n- c\n",
        "<ul>\n<li>a</li>\n<li>\n<pre><code>b\n\n\n</code></pre>\n</li>\n<li>c</li>\n</ul>\n",
    ),
    (
        "| f\\|oo  |\n| ------ |\n| b `\\|` az |\n",
        "<table>\n<thead>\n<tr>\n<th>f|oo</th>\n</tr>\n</thead>\n<tbody>\n<tr>\n<td>b <code>|</code> az</td>\n</tr>\n</tbody>\n</table>\n",
    ),
    (
        "| abc | def |\n| --- |\n",
        "<p>| abc | def |\n| --- |</p>\n",
    ),
    (
        "- [ ] foo\n- [x] bar\n",
        "<ul>\n<li><input disabled=\"\" type=\"checkbox\"> foo</li>\n<li><input checked=\"\" disabled=\"\" type=\"checkbox\"> bar</li>\n</ul>\n",
    ),
    (
        "| a | b |\n| :-- | --: |\n| 1 |\n| 2 | 3 | 4 |\n",
        "<table>
<thead>
<tr>
<th align=\"left\">a</th>
<th align=\"right\">b</th>
</tr>
</thead>
<tbody>
<tr>
<td align=\"left\">1</td>
<td align=\"right\"></td>
</tr>
<tr>
<td align=\"left\">2</td>
<td align=\"right\">3</td>
</tr>
</tbody>
</table>
",
    ),
    (
        "- | a |\n  | - |\n",
        "<ul>\n<li>\n<table>\n<thead>\n<tr>\n<th>a</th>\n</tr>\n</thead>\n</table>\n</li>\n</ul>\n",
    ),
];

/// Inlines (CommonMark 6; GFM Strikethrough (extension)) and definitions (CommonMark 4.7).
static INLINES: [(&str, &str); 20] = [
    (
        "[foo]: /url\n===\n[foo]\n",
        "<p>===\n<a href=\"/url\">foo</a></p>\n",
    ),
    ("[foo]: /url\n---\n", "<hr />\n"),
    ("*foo**bar*", "<p><em>foo**bar</em></p>\n"),
    (
        "[foo][bar][baz]\n\n[baz]: /url1\n[foo]: /url2\n",
        "<p>[foo]<a href=\"/url1\">bar</a></p>\n",
    ),
    (
        "[\u{1E9E}]\n\n[SS]: /url\n",
        "<p><a href=\"/url\">\u{1E9E}</a></p>\n",
    ),
    (
        "~~Hi~~ Hello, ~there~ world!",
        "<p><del>Hi</del> Hello, <del>there</del> world!</p>\n",
    ),
    (
        "&quot; &nope; &#0; &#x41;",
        "<p>&quot; &amp;nope; \u{FFFD} A</p>\n",
    ),
    (
        "<http://a/?b&amp;c>",
        "<p><a href=\"http://a/?b&amp;c\">http://a/?b&amp;c</a></p>\n",
    ),
    (
        "<b>x</b>",
        "<p><!-- raw HTML omitted -->x<!-- raw HTML omitted --></p>\n",
    ),
    ("[a](javascript:x)", "<p><a href=\"\">a</a></p>\n"),
    (
        "[a](/\u{E4} \"t\")",
        "<p><a href=\"/%C3%A4\" title=\"t\">a</a></p>\n",
    ),
    ("a  \nb\\\nc", "<p>a<br />\nb<br />\nc</p>\n"),
    ("*a`*` ", "<p>*a<code>*</code></p>\n"),
    (
        "[foo]: /url \"title\" ok\n",
        "<p>[foo]: /url &quot;title&quot; ok</p>\n",
    ),
    (
        "[foo]: /url\n\"title\" ok\n",
        "<p>&quot;title&quot; ok</p>\n",
    ),
    (
        "[foo [bar](/a)](/b)",
        "<p>[foo <a href=\"/a\">bar</a>](/b)</p>\n",
    ),
    (
        "![foo *bar*](/u \"t\")",
        "<p><img src=\"/u\" alt=\"foo bar\" title=\"t\" /></p>\n",
    ),
    ("[a][b]", "<p>[a][b]</p>\n"),
    ("a ~~~b~~~", "<p>a ~~~b~~~</p>\n"),
    ("[a][ ]\n\n[a]: /u\n", "<p><a href=\"/u\">a</a>[ ]</p>\n"),
];

/// What `serve` answers to a first edit that adds this text, and to `html` after it.
fn answered(alloc: Global, text: &str, unsafe_html: bool) -> Result<String, AllocError> {
    let lines = lines_of(alloc, text)?;
    let mut script = format!(in alloc; "edit 0 0 {}\n", lines.len())?;
    for line in &lines {
        script.push_str(line)?;
        script.push_str("\n")?;
    }
    script.push_str("html\n")?;
    replies(alloc, &script, unsafe_html)
}

/// What `serve` answers to a script.
fn replies(alloc: Global, script: &str, unsafe_html: bool) -> Result<String, AllocError> {
    let options = Options {
        unsafe_html,
        ..SOFT
    };
    let run = run_of(alloc, Engine::Serve, script.as_bytes(), WIDE, options)?;
    if !run.ended("Ok(())") {
        return Err(AllocError);
    }
    String::from_utf8_lossy(alloc, &run.written)
}

fn check(
    rt: &impl Abort,
    alloc: Global,
    text: &str,
    unsafe_html: bool,
    want: &str,
) -> Result<(), AllocError> {
    let answer = answered(alloc, text, unsafe_html)?;
    let reply = format!(in alloc; "html {}\n{want}", want.len())?;
    assert!(rt; answer.starts_with("ok 0 0 "), "{text}");
    assert!(rt; answer.ends_with(reply.as_str()), "{text} gives {answer}");
    Ok(())
}

fn check_all(
    rt: &impl Abort,
    alloc: Global,
    rows: &[(&'static str, &'static str)],
) -> Result<(), AllocError> {
    for (text, want) in rows {
        check(rt, alloc, text, false, want)?;
    }
    Ok(())
}

#[test]
fn blocks_are_as_worked(rt: HostRuntime) -> Result<(), Fail> {
    check_all(&rt, rt.alloc(), &BLOCKS)?;
    Ok(())
}

#[test]
fn inlines_are_as_worked(rt: HostRuntime) -> Result<(), Fail> {
    check_all(&rt, rt.alloc(), &INLINES)?;
    check(&rt, rt.alloc(), "<b>x</b>", true, "<p><b>x</b></p>\n")?;
    Ok(())
}

/// A text made of a beginning, so many copies of a part, a middle, so many of another, and an end.
fn repeated(
    alloc: Global,
    begin: &str,
    part: &str,
    middle: &str,
    other: &str,
    count: usize,
) -> Result<String, AllocError> {
    let mut text = String::from_str(alloc, begin)?;
    text.push_str(&part.repeat(alloc, count)?)?;
    text.push_str(middle)?;
    text.push_str(&other.repeat(alloc, count)?)?;
    Ok(text)
}

/// The HTML of 64 block quotes in one another.
fn quotes_html(alloc: Global) -> Result<String, AllocError> {
    let begin = "<blockquote>\n";
    repeated(alloc, "", begin, "<p>x</p>\n", "</blockquote>\n", 64)
}

/// The HTML of a paragraph of 64 spans in one another.
fn paragraph(alloc: Global, begin: &str, inside: &str, end: &str) -> Result<String, AllocError> {
    let mut html = repeated(alloc, "<p>", begin, inside, end, 64)?;
    html.push_str("</p>\n")?;
    Ok(html)
}

/// Compares the whole answer.
fn check_answer(rt: &impl Abort, alloc: Global, text: &str, want: &str) -> Result<(), AllocError> {
    let answer = answered(alloc, text, false)?;
    assert_eq!(rt; answer.as_str(), want);
    Ok(())
}

#[test]
fn nesting_has_a_limit(rt: HostRuntime) -> Result<(), Fail> {
    let alloc = rt.alloc();
    let quotes = repeated(alloc, "", ">", "x", "", 64)?;
    check(&rt, alloc, &quotes, false, &quotes_html(alloc)?)?;
    let deep = repeated(alloc, "\n", ">", "x", "", 65)?;
    check_answer(&rt, alloc, &deep, "refused NestedTooDeep 1\nhtml 0\n")?;
    let spans = repeated(alloc, "", "*a ", "b", " a*", 64)?;
    check(
        &rt,
        alloc,
        &spans,
        false,
        &paragraph(alloc, "<em>a ", "b", " a</em>")?,
    )?;
    let deep = repeated(alloc, "", "*a ", "b", " a*", 65)?;
    check_answer(&rt, alloc, &deep, "refused InlineTooDeep 0\nhtml 0\n")?;
    Ok(())
}

/// The length that the last reply tells.
fn html_len(answer: &str) -> Option<&str> {
    let (_, after) = answer.split_once("\nhtml ")?;
    let (len, _) = after.split_once('\n')?;
    Some(len)
}

/// Compares the length of the HTML of a part that is repeated.
fn check_len(
    rt: &impl Abort,
    alloc: Global,
    begin: &str,
    part: &str,
    want: &str,
) -> Result<(), AllocError> {
    let text = repeated(alloc, begin, part, "", "", 100_000)?;
    let answer = answered(alloc, &text, false)?;
    assert_eq!(rt; html_len(&answer), Some(want), "{part}");
    Ok(())
}

/// 128 asterisks on either side are 64 spans in one another.
fn check_strong(rt: &impl Abort, alloc: Global) -> Result<(), AllocError> {
    let html = paragraph(alloc, "<strong>", "a", "</strong>")?;
    assert_eq!(rt; html.len(), 1_097);
    let text = repeated(alloc, "", "*", "a", "*", 128)?;
    check(rt, alloc, &text, false, &html)
}

static MALICIOUS: [(&str, &str, &str); 4] = [
    ("a", "*", "100009"),
    ("", "[", "100008"),
    ("a", "`", "100009"),
    ("a", "<", "400009"),
];

#[test]
fn malicious_texts_end(rt: HostRuntime) -> Result<(), Fail> {
    let alloc = rt.alloc();
    for &(begin, part, want) in &MALICIOUS {
        check_len(&rt, alloc, begin, part, want)?;
    }
    let quotes = repeated(alloc, "", ">", "", "", 100_000)?;
    check_answer(&rt, alloc, &quotes, "refused NestedTooDeep 0\nhtml 0\n")?;
    check_strong(&rt, alloc)?;
    let deep = repeated(alloc, "", "*", "a", "*", 129)?;
    check_answer(&rt, alloc, &deep, "refused InlineTooDeep 0\nhtml 0\n")?;
    Ok(())
}

/// What is answered last: a refusal, and the HTML as it was.
fn refusal(alloc: Global) -> Result<String, AllocError> {
    let mut html = paragraph(alloc, "<em>a ", "[k]", " a</em>")?;
    html.push_str("<p>x</p>\n")?;
    format!(in alloc; "refused InlineTooDeep 0\nhtml {}\n{html}", html.len())
}

#[test]
fn refused_depth_changes_nothing(rt: HostRuntime) -> Result<(), Fail> {
    let alloc = rt.alloc();
    let mut script = repeated(alloc, "edit 0 0 4\n", "*a ", "[k]", " a*", 64)?;
    script.push_str("\n\nx\n\nedit 4 0 1\n[k]: /u\nhtml\n")?;
    let written = replies(alloc, &script, false)?;
    assert!(rt; written.starts_with("ok 0 0 2 0\n"));
    assert!(rt; written.ends_with(refusal(alloc)?.as_str()));
    Ok(())
}
