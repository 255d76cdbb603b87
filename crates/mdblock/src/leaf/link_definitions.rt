//! Link reference definitions (CommonMark 4.7), with which a paragraph may begin.

ghost use Rattle.std.specs.Prelude.{◌≡◌, ◌++◌, IfOk, OnOk, string_bytes};
ghost use Rattle.mdscan.specs.Blanks.{begins_with};
ghost use Rattle.mdleaf.specs.ParagraphDefinitions.{leading_of};
ghost use Rattle.mdleaf.specs.ParagraphText.{behind_definitions, without_end_blanks};
ghost use Rattle.mdblock.specs.held.HandedIn.{gathered_definitions};

use crate::gathering::Gathering;
use crate::lines::trimmed_length;
use mdleaf::leading_definitions;
use std::alloc::AllocError;

/// What is left of a paragraph's text after its definitions, which are handed in, without spaces and tabs at its end.
pub(crate) fn content(mut text: String, gathering: &mut Gathering) -> Result<String, AllocError>
    ensures texts { gathering.new.texts ≡ gathering.old.texts }
    ensures entities { gathering.new.entities.now ≡ gathering.old.entities.now }
    ensures left { IfOk result (λ rest. string_bytes rest ≡ behind_definitions (without_end_blanks (string_bytes text))) }
    ensures found { OnOk result (gathered_definitions gathering.new
        ≡ gathered_definitions gathering.old ++ leading_of gathering.old.entities.now (without_end_blanks (string_bytes text))) }
{
    let length = trimmed_length(text.as_str());
    text.truncate(length);
    take_definitions(&mut text, gathering)?;
    Ok(text)
}

/// Hands in the definitions at the front of a paragraph's text, and leaves the text behind them.
fn take_definitions(text: &mut String, gathering: &mut Gathering) -> Result<(), AllocError>
    ensures texts { gathering.new.texts ≡ gathering.old.texts }
    ensures entities { gathering.new.entities.now ≡ gathering.old.entities.now }
    ensures left { OnOk result (string_bytes text.new ≡ behind_definitions (string_bytes text.old)) }
    ensures found { OnOk result (gathered_definitions gathering.new
        ≡ gathered_definitions gathering.old ++ leading_of gathering.old.entities.now (string_bytes text.old)) }
{
    if !may_define(text.as_str()) {
        return Ok(());
    }
    let mut leading = leading_definitions(gathering.alloc(), text.as_str(), gathering.entities())?;
    gathering.define(&mut leading.definitions)?;
    text.replace_range(..leading.rest, "")
}

/// Whether a text begins as a link reference definition does: most paragraphs need no closer look.
fn may_define(text: &str) -> bool
    ensures { result ≡ begins_with 91 text.now }
{
    matches!(text.as_bytes(), [b'[', ..])
}
