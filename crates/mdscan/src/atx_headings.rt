//! ATX headings.

ghost use Rattle.std.specs.Prelude.{◌≡◌, ◌≤◌, IfSome, length};
ghost use Rattle.std.specs.Str.{IsCharBoundary};
ghost use Rattle.mdscan.specs.AtxHeading.{atx_heading, content_length, heading_content};
ghost use Rattle.mdscan.specs.Spans.{IsSpanOf};

use crate::byte_runs::{blank, blank_follows, leading, trailing, trailing_blanks};
use crate::spans::{Span, trimmed};

/// The line of an ATX heading (CommonMark 4.2).
#[derive(Clone, Copy, Debug, PartialEq, Eq)]
pub struct AtxLine {
    /// How many `#` open it: 1 to 6.
    pub level: u8,
    /// The content, without spaces and tabs around it and without the closing sequence; empty where there is none.
    pub content: Span,
}

/// The ATX heading that the rest of a line is (CommonMark 4.2).
#[tactic(auto, unfolding(crate::specs::AtxHeading::atx_heading))]
pub fn atx(rest: &str) -> Option<AtxLine>
    ensures line { result ≡ atx_heading rest.now }
    ensures content { IfSome result (λ line. IsSpanOf rest.now line.content) }
{
    let line = rest.as_bytes();
    let level = leading(line, b'#');
    if level > 0 && level <= 6 && blank_follows(&line[level..]) {
        Some(AtxLine {
            level: level as u8,
            content: content(rest, level),
        })
    } else {
        None
    }
}

/// Where the content is of a heading whose opening sequence has `level` marks.
#[tactic(auto, unfolding(crate::specs::AtxHeading::heading_content))]
fn content(line: &str, level: usize) -> Span
    requires { IsCharBoundary line.now level }
    ensures value { result ≡ heading_content line.now level }
    ensures span { IsSpanOf line.now result }
{
    let inner = trimmed(line, level);
    let length = before_closing(&line.as_bytes()[inner.start..inner.end]);
    Span {
        start: inner.start,
        end: inner.start + length,
    }
}

/// How long a heading is without its closing sequence and the spaces and tabs before that.
#[tactic(auto, unfolding(crate::specs::AtxHeading::content_length))]
fn before_closing(body: &[u8]) -> usize
    ensures value { result ≡ content_length body.now }
    ensures within { result ≤ length body.now }
{
    let kept = body.len() - trailing(body, b'#');
    if kept == 0 || blank(body[kept - 1]) {
        kept - trailing_blanks(&body[..kept])
    } else {
        body.len()
    }
}
