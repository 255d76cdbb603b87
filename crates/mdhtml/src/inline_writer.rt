//! HTML of inlines as they come, with no tree.

ghost use Rattle.std.specs.Prelude.{◌≡◌, ◌++◌, IfSome, OnOk, [], true, false, codes, string_bytes, reverse};
ghost use Rattle.mdtext.specs.HtmlEscapes.{escaped};
ghost use Rattle.inlinespec.specs.CodeSpans.{as_one_line};

use crate::code_spans::write_as_one_line;
use crate::images::{begin_image, end_image};
use crate::line_breaks::{write_hard, write_soft};
use crate::links::open_link;
use crate::raw_html::write_raw;
use htmlspec::Options;
use mdinline::{InlineSink, SpanKind};
use mdtext::{NoMemory, escape_text};
use std::alloc::Global;

/// A span that is open, by what is written at its end.
#[derive(Drop)]
pub(crate) enum OpenSpan {
    /// A tag.
    Tag(&'static str),
    /// What stands behind an image's alternative text, with this title.
    Image(String),
    /// Nothing: inside an image there are no tags.
    Alternative,
}

/// Writes the HTML of inlines as they come (CommonMark 6; GFM Strikethrough (extension)).
#[derive(Drop)]
pub(crate) struct InlineWriter {
    alloc: Global,
    options: Options,
    html: String,
    /// Those that are open, the innermost last.
    spans: Vec<OpenSpan>,
    in_image: bool,
}

impl InlineWriter {
    ghost use Rattle.mdhtml.specs.held.InlineWriter.{writing_of};
    ghost use Rattle.htmlspec.specs.InlineWriting.{writing};

    /// A writer of a text of which nothing is written yet. What `html` and `spans` have is let go, and their room is used.
    pub(crate) fn begin_text(
        alloc: Global,
        options: Options,
        html: String,
        spans: Vec<OpenSpan>,
    ) -> InlineWriter
        ensures options { result.options ≡ options }
        ensures nothing { writing_of result ≡ writing [] [] false }
    {
        let mut writer = InlineWriter {
            alloc,
            options,
            html,
            spans,
            in_image: false,
        };
        writer.html.clear();
        writer.spans.clear();
        writer
    }

    /// The HTML of the text that was taken, and room for open spans.
    pub(crate) fn into_parts(self) -> (String, Vec<OpenSpan>)
        ensures { result.0 ≡ self.html }
    {
        (self.html, self.spans)
    }
}

impl InlineSink for InlineWriter {
    ghost use Rattle.mdhtml.specs.held.InlineWriter.{Takes, takes_nothing, takes_both};

    ghost takes = { Takes };

    fn plain(&mut self, text: &str) -> Result<(), NoMemory> {
        self.html.push_str(text)?;
        Ok(())
    }

    fn text(&mut self, text: &str) -> Result<(), NoMemory> {
        write_text(text, &mut self.html)
    }

    fn code_span(&mut self, content: &str) -> Result<(), NoMemory> {
        if self.in_image {
            return write_as_one_line(content, &mut self.html);
        }
        self.html.push_str("<code>")?;
        write_as_one_line(content, &mut self.html)?;
        self.html.push_str("</code>")?;
        Ok(())
    }

    fn raw_html(&mut self, html: &str) -> Result<(), NoMemory> {
        if self.in_image {
            escape_text(html, &mut self.html)
        } else {
            write_raw(html, &self.options, &mut self.html)
        }
    }

    fn soft_break(&mut self) -> Result<(), NoMemory> {
        if self.in_image {
            self.html.push_str(" ")?;
            return Ok(());
        }
        write_soft(&self.options, &mut self.html)
    }

    fn hard_break(&mut self) -> Result<(), NoMemory> {
        if self.in_image {
            self.html.push_str(" ")?;
            return Ok(());
        }
        write_hard(&mut self.html)
    }

    fn enter(&mut self, kind: SpanKind) -> Result<(), NoMemory> {
        if self.in_image {
            return self.begin("", OpenSpan::Alternative);
        }
        match kind {
            SpanKind::Emph => self.begin("<em>", OpenSpan::Tag("</em>")),
            SpanKind::Strong => self.begin("<strong>", OpenSpan::Tag("</strong>")),
            SpanKind::Strike => self.begin("<del>", OpenSpan::Tag("</del>")),
        }
    }

    fn enter_link(&mut self, url: &str, title: &str) -> Result<(), NoMemory> {
        if self.in_image {
            return self.begin("", OpenSpan::Alternative);
        }
        open_link(url, title, &self.options, &mut self.html)?;
        self.begin("", OpenSpan::Tag("</a>"))
    }

    fn enter_image(&mut self, url: &str, title: &str) -> Result<(), NoMemory> {
        if self.in_image {
            return self.begin("", OpenSpan::Alternative);
        }
        let title = String::from_str(self.alloc, title)?;
        begin_image(url, &self.options, &mut self.html)?;
        self.begin("", OpenSpan::Image(title))?;
        self.in_image = true;
        Ok(())
    }

    fn leave(&mut self) -> Result<(), NoMemory> {
        match self.spans.pop() {
            Some(span) => self.end(span),
            None => Ok(()),
        }
    }

    ghost takes_none = { takes_nothing };

    ghost takes_more = { takes_both };
}

impl InlineWriter {
    ghost use Rattle.mdhtml.specs.held.InlineWriter.{end_of, writing_of};
    ghost use Rattle.htmlspec.specs.InlineWriting.{begins, ended};

    /// Ends a span that is open no more.
    fn end(&mut self, span: OpenSpan) -> Result<(), NoMemory>
        ensures options { self.new.options ≡ self.old.options }
        ensures spans { self.new.spans ≡ self.old.spans }
        ensures ended { OnOk result (writing_of self.new ≡ ended (writing_of self.old) (end_of span)) }
    {
        match span {
            OpenSpan::Tag(end) => self.html.push_str(end)?,
            OpenSpan::Image(title) => {
                end_image(&title, &mut self.html)?;
                self.in_image = false;
            }
            OpenSpan::Alternative => {}
        }
        Ok(())
    }

    /// Writes the tag with which a span begins, or what is left of it. The span is open then.
    fn begin(&mut self, tag: &str, span: OpenSpan) -> Result<(), NoMemory>
        ensures options { self.new.options ≡ self.old.options }
        ensures begun { OnOk result (writing_of self.new ≡ begins (writing_of self.old) tag.now (end_of span)) }
    {
        self.html.push_str(tag)?;
        self.spans.push(span)?;
        Ok(())
    }
}

/// Appends text. A quotation mark or another byte that HTML escapes mostly comes alone, and is not searched for.
fn write_text(text: &str, out: &mut String) -> Result<(), NoMemory>
    ensures { OnOk result (string_bytes out.new ≡ string_bytes out.old ++ escaped text.now) }
{
    match reference_of(text.as_bytes()) {
        Some(reference) => out.push_str(reference),
        None => escape_text(text, out),
    }
}

/// The reference that HTML writes for a text of one byte, if it writes one.
#[tactic(auto, unfolding(mdtext::specs::HtmlEscapes::escaped_byte))]
fn reference_of(text: &[u8]) -> Option<&'static str>
    ensures { IfSome result (λ reference. reference.now ≡ escaped text.now) }
{
    match text {
        [b'"'] => Some("&quot;"),
        [b'&'] => Some("&amp;"),
        [b'<'] => Some("&lt;"),
        [b'>'] => Some("&gt;"),
        _ => None,
    }
}
