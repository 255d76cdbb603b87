//! Images (CommonMark 6.4): an image is read as a link is (`links`, `bracket_stack`), but for its mark `![` and what it is handed out as.

ghost use Rattle.std.specs.Prelude.{◌≡◌, [], ◌∷◌, OnOk};
ghost use Rattle.mdtext.specs.HtmlEscapes.{escaped};
ghost use Rattle.inlinespec.specs.InlineEvents.{Enter, written};
ghost use Rattle.inlinespec.specs.Pieces.{bracket_text};
ghost use Rattle.inlinespec.specs.Images.{span_to};

use crate::sinks::InlineSink;
use mdtext::NoMemory;

/// The bracket of an image or of a link as text.
#[tactic(auto, unfolding(mdtext::specs::HtmlEscapes::escaped_byte))]
pub(crate) fn bracket_text(is_image: bool) -> &'static str
    ensures value { written result.now ≡ bracket_text is_image }
    ensures plain { escaped result.now ≡ result.now }
{
    if is_image { "![" } else { "[" }
}

/// Begins an image or a link that leads there.
pub(crate) fn enter_goal<S: InlineSink>(
    is_image: bool,
    url: &str,
    title: &str,
    sink: &mut S,
) -> Result<(), NoMemory>
    ensures { OnOk result (S.takes sink.old (Enter (span_to is_image (record { url = url.now; title = title.now })) ∷ []) sink.new) }
{
    if is_image {
        sink.enter_image(url, title)
    } else {
        sink.enter_link(url, title)
    }
}
