//! The whole-text engine, entity files and words, at worked rows; devices that fail at each call.

ghost use Rattle.htmlspec.specs.Limits.{HasLimits};

use crate::options::SOFT;
use crate::runs::{Devices, Engine, Run, SOUND, run_of, words_read};
use mdtool::{Breaks, MemoryFeed, Options, Words, entities_from};
use std::alloc::{AllocError, Global};
use std::process::Abort;
use std::test::Fail;

/// Converts a text, of which this must be written, and which must end so.
fn check(
    rt: &impl Abort,
    alloc: Global,
    text: &[u8],
    options: Options,
    want: &str,
    want_end: &str,
) -> Result<(), AllocError>
    requires { HasLimits options }
{
    let run = run_of(alloc, Engine::Convert, text, SOUND, options)?;
    assert!(rt; run.wrote(want), "{want}");
    assert!(rt; run.ended(want_end), "{want_end}");
    Ok(())
}

const RAW: Options = Options {
    unsafe_html: true,
    ..SOFT
};

const SPACES: Options = Options {
    breaks: Breaks::Space,
    ..SOFT
};

/// Texts as they are converted in the usual way.
static CONVERTED: [(&[u8], &str); 3] = [
    (b"", ""),
    (b"a\xFF\rb", "<p>a\u{FFFD}\nb</p>\n"),
    (LINKS, LINKS_HTML),
];

#[test]
fn converts_worked_texts(rt: HostRuntime) -> Result<(), Fail> {
    let alloc = rt.alloc();
    for &(text, want) in &CONVERTED {
        check(&rt, alloc, text, SOFT, want, "Ok(())")?;
    }
    check(&rt, alloc, b"a\nb", SPACES, "<p>a b</p>\n", "Ok(())")?;
    check(&rt, alloc, b"<b>x</b>", RAW, "<p><b>x</b></p>\n", "Ok(())")?;
    Ok(())
}

/// A block quote or a span in 64 others, below a first paragraph: nothing of the paragraph is written.
#[test]
fn writes_nothing_of_a_refused_text(rt: HostRuntime) -> Result<(), Fail> {
    let alloc = rt.alloc();
    let deep = ">".repeat(alloc, 65)?;
    let text = format!(in alloc; "a\n\n{deep}x\n")?;
    let want = "Err(Refused(NestedTooDeep { line: 2 }))";
    check(&rt, alloc, text.as_bytes(), SOFT, "", want)?;
    let opened = "*a ".repeat(alloc, 65)?;
    let closed = " a*".repeat(alloc, 65)?;
    let text = format!(in alloc; "a\n\n{opened}x{closed}\n")?;
    let want = "Err(Refused(InlineTooDeep { line: 2 }))";
    check(&rt, alloc, text.as_bytes(), SOFT, "", want)?;
    Ok(())
}

const LINKS: &[u8] = b"[foo][bar][baz]\n\n[baz]: /url1\n[foo]: /url2\n";

const LINKS_HTML: &str = "<p>[foo]<a href=\"/url1\">bar</a></p>\n";

/// What an engine does with a text or a script in calls of 7 bytes, where a device fails.
fn by_sevens(
    alloc: Global,
    engine: Engine,
    text: &[u8],
    feed_fails: Option<u64>,
    out_fails: Option<u64>,
) -> Result<Run, AllocError> {
    let devices = Devices {
        step: 7,
        feed_fails,
        out_fails,
    };
    run_of(alloc, engine, text, devices, SOFT)
}

/// The text comes in 7 calls of 7 bytes with one more that finds the end; its 36 bytes go in 6 calls and a flush.
#[test]
fn ends_at_each_device_fault(rt: HostRuntime) -> Result<(), Fail> {
    let alloc = rt.alloc();
    for calls in 0..8 {
        let run = by_sevens(alloc, Engine::Convert, LINKS, Some(calls), None)?;
        assert!(rt; run.wrote(""), "{calls}");
        assert!(rt; run.ended("Err(Read)"), "{calls}");
    }
    for calls in 0..7 {
        let run = by_sevens(alloc, Engine::Convert, LINKS, None, Some(calls))?;
        assert!(rt; run.began(LINKS_HTML), "{calls}");
        assert_eq!(rt; run.written.len() as u64, (calls * 7).min(36), "{calls}");
        assert!(rt; run.ended("Err(Write)"), "{calls}");
    }
    let run = by_sevens(alloc, Engine::Convert, LINKS, None, Some(7))?;
    assert!(rt; run.wrote(LINKS_HTML));
    assert!(rt; run.ended("Ok(())"));
    Ok(())
}

/// Two edits, of which the second leads a link elsewhere.
pub(super) const EDITS: &str = "edit 0 0 5\n[foo]\n\nx\n\n[foo]: /a\nedit 4 1 1\n[foo]: /b\n";

pub(super) const REPLIES: &str = "ok 0 0 3 0
piece 0 28
<p><a href=\"/a\">foo</a></p>
piece 1 9
<p>x</p>
piece 2 0
ok 1 2 2 1
piece 0 28
<p><a href=\"/b\">foo</a></p>
piece 1 9
<p>x</p>
piece 2 0
";

/// The bytes of the first of these replies; the second has as many.
const REPLY: u64 = 79;

static FEED_FAULTS: [(u64, u64); 9] = [
    (0, 0),
    (1, 0),
    (2, 0),
    (3, 0),
    (4, 0),
    (5, 1),
    (6, 1),
    (7, 1),
    (8, 2),
];

/// The script comes in 8 calls of 7 bytes with one more that finds the end; its first edit is whole after 5 calls.
#[test]
fn a_script_ends_at_each_feed_fault(rt: HostRuntime) -> Result<(), Fail> {
    let alloc = rt.alloc();
    for &(calls, replies) in &FEED_FAULTS {
        let run = by_sevens(alloc, Engine::Serve, EDITS.as_bytes(), Some(calls), None)?;
        assert!(rt; run.began(REPLIES), "{calls}");
        assert_eq!(rt; run.written.len() as u64, replies * REPLY, "{calls}");
        assert_eq!(rt; run.flushes, replies, "{calls}");
        assert!(rt; run.ended("Err(Read)"), "{calls}");
    }
    Ok(())
}

/// A reply goes in 12 calls of 7 bytes and a flush.
#[test]
fn a_script_ends_at_each_out_fault(rt: HostRuntime) -> Result<(), Fail> {
    let alloc = rt.alloc();
    for calls in 0..26 {
        let run = by_sevens(alloc, Engine::Serve, EDITS.as_bytes(), None, Some(calls))?;
        let want = calls / 13 * REPLY + (calls % 13 * 7).min(REPLY);
        assert!(rt; run.began(REPLIES), "{calls}");
        assert_eq!(rt; run.written.len() as u64, want, "{calls}");
        assert!(rt; run.ended("Err(Write)"), "{calls}");
    }
    let run = by_sevens(alloc, Engine::Serve, EDITS.as_bytes(), None, Some(26))?;
    assert!(rt; run.wrote(REPLIES));
    assert!(rt; run.ended("Ok(())"));
    assert_eq!(rt; run.flushes, 2);
    Ok(())
}

fn check_entities(
    rt: &impl Abort,
    alloc: Global,
    file: &[u8],
    fails: Option<u64>,
    want: &str,
) -> Result<(), AllocError> {
    let mut feed = MemoryFeed::new(file, 5, fails);
    let said = match entities_from(alloc, &mut feed) {
        Ok(entities) => format!(in alloc; "{:?}", entities.get("x"))?,
        Err(fault) => format!(in alloc; "{fault:?}")?,
    };
    assert_eq!(rt; said.as_str(), want);
    Ok(())
}

const ENTITY_FILE: &[u8] = b"{\"&x;\":{\"characters\":\"y\"}}";

/// Files, at which call the feed fails, and what the name `x` stands for.
static ENTITY_FILES: [(&[u8], Option<u64>, &str); 6] = [
    (ENTITY_FILE, None, "Some(\"y\")"),
    (b"{\"&a\":5}", None, "None"),
    (b"[]", None, "Table(NotJson)"),
    (b"{\"&;\":{\"characters\":\"x\"}}", None, "Table(BadEntry)"),
    (ENTITY_FILE, Some(0), "Read"),
    (ENTITY_FILE, Some(3), "Read"),
];

#[test]
fn reads_entity_files(rt: HostRuntime) -> Result<(), Fail> {
    let alloc = rt.alloc();
    for &(file, fails, want) in &ENTITY_FILES {
        check_entities(&rt, alloc, file, fails, want)?;
    }
    Ok(())
}

fn check_words(
    rt: &impl Abort,
    alloc: Global,
    words: &[&str],
    want: &str,
) -> Result<(), AllocError> {
    let said = match words_read(alloc, &*words) {
        Ok(read) => {
            format!(in alloc;
                "{} {:?} {:?} {:?}",
                read.options.unsafe_html, read.options.breaks, read.entities, read.file
            )?
        }
        Err(fault) => format!(in alloc; "{fault:?}")?,
    };
    assert_eq!(rt; said.as_str(), want, "{words:?}");
    Ok(())
}

static WORDS_READ: &[(&[&str], &str)] = &[
    (&["mdrender"], "false Soft None None"),
    (&["mdrender", "--lines"], "NotUnderstood"),
    (&["mdpreview", "--lines"], "false Soft None None"),
    (&["mdrender", "--nobreaks"], "false Space None None"),
    (
        &["mdrender", "--unsafe", "--hardbreaks", "a"],
        "true Hard None Some(\"a\")",
    ),
    (
        &["mdpreview", "--entities", "e", "--", "-a"],
        "false Soft Some(\"e\") Some(\"-a\")",
    ),
    (&["mdrender", "--hardbreaks", "--nobreaks"], "NotUnderstood"),
    (&["mdrender", "--unsafe", "--unsafe"], "NotUnderstood"),
    (&["mdrender", "--entities"], "NotUnderstood"),
    (&["mdrender", "--nosuch"], "NotUnderstood"),
    (&["mdrender", "a", "b"], "NotUnderstood"),
];

#[test]
fn reads_words(rt: HostRuntime) -> Result<(), Fail> {
    for (words, want) in WORDS_READ {
        check_words(&rt, rt.alloc(), words, want)?;
    }
    Ok(())
}

/// Words that ask for two kinds of entity names, for one twice, or for a file of no name.
static BOTH_KINDS: [[&str; 4]; 4] = [
    ["mdrender", "--html-entities", "--entities", "e"],
    ["mdpreview", "--entities=e", "--html-entities", "a"],
    ["mdrender", "a", "--html-entities", "--html-entities"],
    ["mdrender", "--entities", "--html-entities", "a"],
];

#[test]
fn one_kind_of_entity_names_is_known(rt: HostRuntime) -> Result<(), Fail> {
    let alloc = rt.alloc();
    for words in &BOTH_KINDS {
        check_words(&rt, alloc, words, "NotUnderstood")?;
    }
    Ok(())
}

/// Whether all of HTML's names are known by these words, and the name of the file.
fn names_known(alloc: Global, words: &[&str]) -> Result<String, AllocError> {
    match words_read(alloc, words) {
        Ok(read) => format!(in alloc; "{} {:?}", read.html_entities, read.entities),
        Err(fault) => format!(in alloc; "{fault:?}"),
    }
}

static NAMES_KNOWN: [([&str; 2], &str); 4] = [
    (["mdrender", "a"], "false None"),
    (["mdrender", "--entities=e"], "false Some(\"e\")"),
    (["mdrender", "--html-entities"], "true None"),
    (["mdpreview", "--html-entities"], "true None"),
];

#[test]
fn reads_which_entity_names_are_known(rt: HostRuntime) -> Result<(), Fail> {
    for (words, want) in &NAMES_KNOWN {
        let known = names_known(rt.alloc(), words)?;
        assert_eq!(rt; known.as_str(), *want, "{words:?}");
    }
    Ok(())
}

/// Whether the language of a code block goes on `pre`, what stands behind it is written, the alignment of a cell is a style, and one
/// tilde alone is text, by these words.
fn forms_asked(alloc: Global, words: &[&str]) -> Result<String, AllocError> {
    match words_read(alloc, words) {
        Ok(read) => forms_shown(alloc, &read),
        Err(fault) => format!(in alloc; "{fault:?}"),
    }
}

fn forms_shown(alloc: Global, words: &Words) -> Result<String, AllocError> {
    let mut shown = String::new(alloc);
    for on in [
        words.options.pre_lang,
        words.options.full_info_string,
        words.options.align_style,
        words.double_tilde,
    ] {
        shown.push_str(if on { "1" } else { "0" })?;
    }
    Ok(shown)
}

static FORMS_ASKED: [([&str; 3], &str); 9] = [
    (["mdrender", "--unsafe", "a"], "0000"),
    (["mdrender", "--github-pre-lang", "a"], "1000"),
    (["mdpreview", "--full-info-string", "a"], "0100"),
    (
        ["mdpreview", "--table-prefer-style-attributes", "a"],
        "0010",
    ),
    (["mdrender", "--strikethrough-double-tilde", "a"], "0001"),
    (
        [
            "mdpreview",
            "--table-prefer-style-attributes",
            "--github-pre-lang",
        ],
        "1010",
    ),
    (
        ["mdrender", "--github-pre-lang", "--github-pre-lang"],
        "NotUnderstood",
    ),
    (
        ["mdrender", "--full-info-string", "--full-info-string"],
        "NotUnderstood",
    ),
    (
        [
            "mdpreview",
            "--strikethrough-double-tilde",
            "--strikethrough-double-tilde",
        ],
        "NotUnderstood",
    ),
];

#[test]
fn reads_which_forms_are_asked_for(rt: HostRuntime) -> Result<(), Fail> {
    for (words, want) in &FORMS_ASKED {
        let asked = forms_asked(rt.alloc(), words)?;
        assert_eq!(rt; asked.as_str(), *want, "{words:?}");
    }
    Ok(())
}

/// Code blocks and a table, as cmark-gfm writes them with both options.
#[test]
fn writes_languages_and_alignments(rt: HostRuntime) -> Result<(), Fail> {
    let alloc = rt.alloc();
    let forms = Options {
        pre_lang: true,
        align_style: true,
        ..SOFT
    };
    let code = b"~~~ c&<\" x\na\n~~~\n\n    b\n";
    let html =
        "<pre lang=\"c&amp;&lt;&quot;\"><code>a\n</code></pre>\n<pre><code>b\n</code></pre>\n";
    check(&rt, alloc, code, forms, html, "Ok(())")?;
    let table = b"a|b|c|d\n:-|:-:|-:|-\n1|2|3|4\n";
    check(&rt, alloc, table, forms, STYLED_TABLE, "Ok(())")?;
    Ok(())
}

/// What stands behind languages, as cmark-gfm writes it.
#[test]
fn writes_info_strings(rt: HostRuntime) -> Result<(), Fail> {
    let alloc = rt.alloc();
    let full = Options {
        full_info_string: true,
        ..SOFT
    };
    check(&rt, alloc, INFO_STRINGS, full, META_BEHIND_CLASS, "Ok(())")?;
    let on_pre = Options {
        pre_lang: true,
        full_info_string: true,
        ..SOFT
    };
    check(&rt, alloc, INFO_STRINGS, on_pre, META_ON_PRE, "Ok(())")?;
    Ok(())
}

const INFO_STRINGS: &[u8] =
    b"~~~ c&<\" x&y  \"z\"\na\n~~~\n\n~~~ c\n~~~\n\n~~~\n~~~\n\n``` c\td *e*\n";

const META_BEHIND_CLASS: &str =
    "<pre><code class=\"language-c&amp;&lt;&quot;\" data-meta=\"x&amp;y  &quot;z&quot;\">a
</code></pre>
<pre><code class=\"language-c\"></code></pre>
<pre><code></code></pre>
<pre><code class=\"language-c\" data-meta=\"d *e*\"></code></pre>
";

const META_ON_PRE: &str =
    "<pre lang=\"c&amp;&lt;&quot;\" data-meta=\"x&amp;y  &quot;z&quot;\"><code>a
</code></pre>
<pre lang=\"c\"><code></code></pre>
<pre><code></code></pre>
<pre lang=\"c\" data-meta=\"d *e*\"><code></code></pre>
";

const STYLED_TABLE: &str = "<table>
<thead>
<tr>
<th style=\"text-align: left\">a</th>
<th style=\"text-align: center\">b</th>
<th style=\"text-align: right\">c</th>
<th>d</th>
</tr>
</thead>
<tbody>
<tr>
<td style=\"text-align: left\">1</td>
<td style=\"text-align: center\">2</td>
<td style=\"text-align: right\">3</td>
<td>4</td>
</tr>
</tbody>
</table>
";
