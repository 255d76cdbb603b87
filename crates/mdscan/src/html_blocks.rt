//! The beginnings and ends of HTML blocks.

ghost use Rattle.std.specs.Prelude.{◌≡◌, ◌<◌, ◌&&◌, not, length};
ghost use Rattle.std.specs.List.{list_any};
ghost use Rattle.std.specs.Str.{str_eq_ignore_ascii_case};
ghost use Rattle.mdscan.specs.Tag.{open_tag, closing_tag};
ghost use Rattle.mdscan.specs.HtmlBlock.{begins_raw, begins_raw_end, begins_block, is_block_name, begins_declaration, begins_one_of, raw_names};
ghost use Rattle.mdscan.specs.HtmlBlock.{block_names, ends_raw_name, ends_block_name, ends_kind, holds_end, is_raw_tag, fills_line, begins_whole_tag};
ghost use Rattle.mdscan.specs.HtmlBlock.{html_kind};

use crate::byte_runs::{all_blank, begins, blank_follows, leading_name};
use crate::tags::{closing, opening, tag_name};

/// The names of the first kind, whose content is no Markdown.
const RAW_NAMES: [&str; 4] = ["pre", "script", "style", "textarea"];

/// The names of the sixth kind.
const BLOCK_NAMES: [&str; 62] = [
    "address",
    "article",
    "aside",
    "base",
    "basefont",
    "blockquote",
    "body",
    "caption",
    "center",
    "col",
    "colgroup",
    "dd",
    "details",
    "dialog",
    "dir",
    "div",
    "dl",
    "dt",
    "fieldset",
    "figcaption",
    "figure",
    "footer",
    "form",
    "frame",
    "frameset",
    "h1",
    "h2",
    "h3",
    "h4",
    "h5",
    "h6",
    "head",
    "header",
    "hr",
    "html",
    "iframe",
    "legend",
    "li",
    "link",
    "main",
    "menu",
    "menuitem",
    "nav",
    "noframes",
    "ol",
    "optgroup",
    "option",
    "p",
    "param",
    "search",
    "section",
    "summary",
    "table",
    "tbody",
    "td",
    "tfoot",
    "th",
    "thead",
    "title",
    "tr",
    "track",
    "ul",
];

/// The kind of HTML block that the rest of a line begins, 1 to 7: the first that fits (CommonMark 4.6).
#[tactic(auto, unfolding(crate::specs::HtmlBlock::html_kind))]
pub fn html_start(rest: &str) -> Option<u8>
    ensures { result ≡ html_kind rest.now }
{
    let line = rest.as_bytes();
    if raw_begins(line) {
        Some(1)
    } else if line.starts_with(b"<!--") {
        Some(2)
    } else if line.starts_with(b"<?") {
        Some(3)
    } else if declaration_begins(line) {
        Some(4)
    } else if line.starts_with(b"<![CDATA[") {
        Some(5)
    } else if block_begins(line) {
        Some(6)
    } else if whole_tag(line) {
        Some(7)
    } else {
        None
    }
}

/// Whether a line begins with `<!` and a letter.
fn declaration_begins(line: &[u8]) -> bool
    ensures { result ≡ begins_declaration line.now }
{
    match line {
        [b'<', b'!', letter, ..] => letter.is_ascii_alphabetic(),
        _ => false,
    }
}

/// Whether a line is one whole tag, and then only spaces and tabs.
#[tactic(auto, unfolding(crate::specs::HtmlBlock::begins_whole_tag))]
fn whole_tag(line: &[u8]) -> bool
    ensures { result ≡ begins_whole_tag line.now }
{
    whole_open_tag(line) || whole_closing_tag(line)
}

fn whole_open_tag(line: &[u8]) -> bool
    ensures { result ≡ (fills_line line.now (open_tag line.now) && not (is_raw_tag line.now)) }
{
    match opening(line) {
        Some(end) => all_blank(&line[end..]) && !raw_tag(line),
        None => false,
    }
}

fn whole_closing_tag(line: &[u8]) -> bool
    ensures { result ≡ fills_line line.now (closing_tag line.now) }
{
    match closing(line) {
        Some(end) => all_blank(&line[end..]),
        None => false,
    }
}

/// Whether the open tag that a line begins with has a name of the first kind.
#[tactic(auto, unfolding(crate::specs::HtmlBlock::raw_names, crate::specs::HtmlBlock::is_raw_tag))]
fn raw_tag(line: &[u8]) -> bool
    requires { 0 < length line.now }
    ensures { result ≡ is_raw_tag line.now }
{
    let names: [&str; 4] = RAW_NAMES;
    let name = &line[1..];
    one_of(names.as_slice(), &name[..tag_name(name)])
}

/// Whether a line holds what ends an HTML block of a kind (CommonMark 4.6). Kinds 6 and 7 end before a blank
/// line, and so no line holds their end; nor is there one of other kinds.
pub fn html_end(kind: u8, line: &str) -> bool
    ensures { result ≡ holds_end kind line.now }
{
    ends_somewhere(kind, line.as_bytes())
}

/// Whether a text holds what ends a kind.
fn ends_somewhere(kind: u8, text: &[u8]) -> bool
    ensures { result ≡ holds_end kind text.now }
{
    for at in 0..text.len() {
        if ends_here(kind, &text[at..]) {
            return true;
        }
    }
    false
}

/// Whether a text begins with what ends a kind.
#[tactic(auto, unfolding(crate::specs::HtmlBlock::ends_kind))]
fn ends_here(kind: u8, text: &[u8]) -> bool
    ensures { result ≡ ends_kind kind text.now }
{
    match kind {
        1 => ends_raw(text),
        2 => text.starts_with(b"-->"),
        3 => text.starts_with(b"?>"),
        4 => begins(text, b'>'),
        5 => text.starts_with(b"]]>"),
        _ => false,
    }
}

/// Whether a text begins with a closing tag of the first kind.
#[tactic(auto, unfolding(crate::specs::HtmlBlock::begins_raw_end))]
fn ends_raw(text: &[u8]) -> bool
    ensures { result ≡ begins_raw_end text.now }
{
    if !text.starts_with(b"</") {
        return false;
    }
    let name = &text[2..];
    raw_name(name) && begins(&name[leading_name(name)..], b'>')
}

/// Whether a line begins an HTML block of the first kind.
#[tactic(auto, unfolding(crate::specs::HtmlBlock::begins_raw))]
fn raw_begins(line: &[u8]) -> bool
    ensures { result ≡ begins_raw line.now }
{
    if !begins(line, b'<') {
        return false;
    }
    let name = &line[1..];
    raw_name(name) && raw_name_ends(&name[leading_name(name)..])
}

/// Whether a line begins an HTML block of the sixth kind.
#[tactic(auto, unfolding(crate::specs::HtmlBlock::begins_block))]
fn block_begins(line: &[u8]) -> bool
    ensures { result ≡ begins_block line.now }
{
    (begins(line, b'<') && block_name(&line[1..]))
        || (line.starts_with(b"</") && block_name(&line[2..]))
}

/// Whether a text begins with a name of the sixth kind and the end of a name.
#[tactic(auto, unfolding(crate::specs::HtmlBlock::is_block_name))]
fn block_name(text: &[u8]) -> bool
    ensures { result ≡ is_block_name text.now }
{
    begins_block_word(text) && block_name_ends(&text[leading_name(text)..])
}

/// Whether the run of letters and digits that a text begins with is a name of the sixth kind.
#[tactic(auto, unfolding(crate::specs::HtmlBlock::block_names, crate::specs::HtmlBlock::begins_one_of))]
fn begins_block_word(text: &[u8]) -> bool
    ensures { result ≡ begins_one_of block_names text.now }
{
    let names: [&str; 62] = BLOCK_NAMES;
    one_of(names.as_slice(), &text[..leading_name(text)])
}

/// Whether the run of letters and digits that a text begins with is a name of the first kind.
#[tactic(auto, unfolding(crate::specs::HtmlBlock::raw_names, crate::specs::HtmlBlock::begins_one_of))]
fn raw_name(text: &[u8]) -> bool
    ensures { result ≡ begins_one_of raw_names text.now }
{
    let names: [&str; 4] = RAW_NAMES;
    one_of(names.as_slice(), &text[..leading_name(text)])
}

/// Whether what follows a name of the first kind ends it.
fn raw_name_ends(rest: &[u8]) -> bool
    ensures { result ≡ ends_raw_name rest.now }
{
    blank_follows(rest) || begins(rest, b'>')
}

/// Whether what follows a name of the sixth kind ends it.
fn block_name_ends(rest: &[u8]) -> bool
    ensures { result ≡ ends_block_name rest.now }
{
    raw_name_ends(rest) || rest.starts_with(b"/>")
}

/// Whether a text is one of the words, in any case of its ASCII letters.
fn one_of(words: &[&str], text: &[u8]) -> bool
    ensures { result ≡ list_any (λ word. str_eq_ignore_ascii_case word.now text.now) words.now }
{
    for word in words {
        if same_word(word, text) {
            return true;
        }
    }
    false
}

fn same_word(word: &str, text: &[u8]) -> bool
    ensures { result ≡ str_eq_ignore_ascii_case word.now text.now }
{
    word.as_bytes().eq_ignore_ascii_case(text)
}
