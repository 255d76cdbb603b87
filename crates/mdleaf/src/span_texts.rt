//! Parts of a text.

ghost use Rattle.std.specs.Prelude.{◌≡◌};
ghost use Rattle.mdscan.specs.Spans.{IsSpanOf, part};

use mdscan::Span;

/// What stands in a span of a text.
pub(crate) fn part_of(text: &str, span: Span) -> &str
    requires { IsSpanOf text.now span }
    ensures { result.now ≡ part text.now span }
{
    &text[span.start..span.end]
}
