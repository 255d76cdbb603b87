//! Each kind of node with its bytes, by the examples of CommonMark 0.31.2 and GFM 0.29.

use super::calls::html_of;
use mdhtml::{Breaks, Options};
use std::alloc::{AllocError, Global};
use std::process::Abort;
use std::test::Fail;

fn with_unsafe() -> Options {
    Options {
        unsafe_html: true,
        ..Options::plain()
    }
}

fn with_breaks(breaks: Breaks) -> Options {
    Options {
        breaks,
        ..Options::plain()
    }
}

/// A text is a unit with this HTML.
fn check_one(
    rt: &impl Abort,
    alloc: Global,
    text: &str,
    options: &Options,
    want: &str,
) -> Result<(), Fail> {
    let html = html_of(alloc, text, options)?;
    assert_eq!(rt; html.as_str(), want);
    Ok(())
}

/// Each text is a unit with this HTML.
fn check(
    rt: &impl Abort,
    alloc: Global,
    rows: &[(&str, &str)],
    options: &Options,
) -> Result<(), Fail> {
    for &(text, want) in rows {
        check_one(rt, alloc, text, options, want)?;
    }
    Ok(())
}

/// Texts with inlines of each kind.
static INLINES: [(&str, &str); 10] = [
    ("&<>\"'", "<p>&amp;&lt;&gt;&quot;'</p>\n"),
    ("`<a>`", "<p><code>&lt;a&gt;</code></p>\n"),
    ("a <b>", "<p>a <!-- raw HTML omitted --></p>\n"),
    ("a\nb", "<p>a\nb</p>\n"),
    ("a\\\nb", "<p>a<br />\nb</p>\n"),
    ("*e*", "<p><em>e</em></p>\n"),
    ("**s**", "<p><strong>s</strong></p>\n"),
    ("~~d~~", "<p><del>d</del></p>\n"),
    (
        "[a](/\u{E4} \"t\\\"\")",
        "<p><a href=\"/%C3%A4\" title=\"t&quot;\">a</a></p>\n",
    ),
    (
        "![foo *bar*\nx](/u \"t\")",
        "<p><img src=\"/u\" alt=\"foo bar x\" title=\"t\" /></p>\n",
    ),
];

static RAW: [(&str, &str); 2] = [("a <b>", "<p>a <b></p>\n"), ("<i>", "<i>\n")];

static HARD: [(&str, &str); 2] = [
    ("a\nb", "<p>a<br />\nb</p>\n"),
    ("a  \nb", "<p>a<br />\nb</p>\n"),
];

static SPACES: [(&str, &str); 2] = [("a\nb", "<p>a b</p>\n"), ("a  \nb", "<p>a<br />\nb</p>\n")];

#[test]
fn inlines_are_written(rt: HostRuntime) -> Result<(), Fail> {
    let a = rt.alloc();
    check(&rt, a, &INLINES, &Options::plain())?;
    check(&rt, a, &RAW, &with_unsafe())?;
    check(&rt, a, &HARD, &with_breaks(Breaks::Hard))?;
    check(&rt, a, &SPACES, &with_breaks(Breaks::Space))
}

/// Destinations, and what is written of each.
static DESTINATIONS: [(&str, &str); 9] = [
    ("JavaScript:x", ""),
    ("vbscript:x", ""),
    ("file:///x", ""),
    ("data:text/html,x", ""),
    ("data:image/png,x", "data:image/png,x"),
    ("DATA:IMAGE/WEBP,x", "DATA:IMAGE/WEBP,x"),
    ("data:image/svg,x", ""),
    ("java", "java"),
    ("/javascript:x", "/javascript:x"),
];

/// The HTML of a link to this destination.
fn written(alloc: Global, url: &str) -> Result<String, AllocError> {
    format!(in alloc; "<p><a href=\"{url}\">a</a></p>\n")
}

fn check_written(
    rt: &impl Abort,
    alloc: Global,
    text: &str,
    options: &Options,
    want: &str,
) -> Result<(), Fail> {
    let want = written(alloc, want)?;
    check_one(rt, alloc, text, options, &want)
}

/// A link to this destination is written with that one.
fn check_destination(
    rt: &impl Abort,
    alloc: Global,
    url: &str,
    options: &Options,
    want: &str,
) -> Result<(), Fail> {
    let text = format!(in alloc; "[a]({url})")?;
    check_written(rt, alloc, &text, options, want)
}

#[test]
fn harmful_destinations_are_left_out(rt: HostRuntime) -> Result<(), Fail> {
    let a = rt.alloc();
    for &(url, want) in &DESTINATIONS {
        check_destination(&rt, a, url, &Options::plain(), want)?;
        check_destination(&rt, a, url, &with_unsafe(), url)?;
    }
    Ok(())
}

static LEAVES: [(&str, &str); 7] = [
    ("## a<", "<h2>a&lt;</h2>\n"),
    ("***", "<hr />\n"),
    ("b  \nc", "<p>b<br />\nc</p>\n"),
    (
        "```x<\n<p>\n```",
        "<pre><code class=\"language-x&lt;\">&lt;p&gt;\n</code></pre>\n",
    ),
    ("```\n```", "<pre><code></code></pre>\n"),
    ("<i>", "<!-- raw HTML omitted -->\n"),
    (
        "> ## a<\n> ***\n> b  \n> c\n> ```x<\n> <p>\n> ```\n> ```\n> ```\n> <i>",
        "<blockquote>
<h2>a&lt;</h2>
<hr />
<p>b<br />
c</p>
<pre><code class=\"language-x&lt;\">&lt;p&gt;
</code></pre>
<pre><code></code></pre>
<!-- raw HTML omitted -->
</blockquote>
",
    ),
];

static TABLES: [(&str, &str); 2] = [
    (
        "|a|b|\n|:-|-:|\n|1|",
        "<table>
<thead>
<tr>
<th align=\"left\">a</th>
<th align=\"right\">b</th>
</tr>
</thead>
<tbody>
<tr>
<td align=\"left\">1</td>
<td align=\"right\"></td>
</tr>
</tbody>
</table>
",
    ),
    (
        "|a|\n|-|",
        "<table>\n<thead>\n<tr>\n<th>a</th>\n</tr>\n</thead>\n</table>\n",
    ),
];

static CONTAINERS: [(&str, &str); 3] = [
    (
        "> a\n>\n> >",
        "<blockquote>\n<p>a</p>\n<blockquote>\n</blockquote>\n</blockquote>\n",
    ),
    (
        "- [ ] foo\n- [x] bar",
        "<ul>\n<li><input disabled=\"\" type=\"checkbox\"> foo</li>\n<li><input checked=\"\" disabled=\"\" type=\"checkbox\"> bar</li>\n</ul>\n",
    ),
    (
        "3. a\n\n4. ",
        "<ol start=\"3\">\n<li>\n<p>a</p>\n</li>\n<li></li>\n</ol>\n",
    ),
];

#[test]
fn blocks_are_written(rt: HostRuntime) -> Result<(), Fail> {
    let a = rt.alloc();
    check(&rt, a, &LEAVES, &Options::plain())?;
    check(&rt, a, &TABLES, &Options::plain())?;
    check(&rt, a, &CONTAINERS, &Options::plain())
}
