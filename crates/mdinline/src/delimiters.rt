//! The delimiter runs of a text (CommonMark 6.2; GFM Strikethrough (extension)).

ghost use Rattle.std.specs.Prelude.{◌≡◌, ◌+◌, ◌<◌, ◌≤◌, IfSome, length};
ghost use Rattle.std.specs.Str.{IsCharBoundary};
ghost use Rattle.inlinespec.specs.DelimiterRuns.{delimiters_at};

use crate::strikethrough::is_lone_tilde;
use mdpair::{DelimiterRun, delimiter_run};
use mdtext::Entities;

/// The delimiter run that begins at a place, or none; one tilde is none where one alone is text.
#[inline(always)]
pub(crate) fn delimiters_at(text: &str, at: usize, entities: &Entities) -> Option<DelimiterRun>
    ensures value { result ≡ delimiters_at entities.now text.now at }
    ensures some { IfSome result (λ run. 0 < run.length) }
    ensures within { IfSome result (λ run. at + run.length ≤ length text.now) }
    ensures boundary { IfSome result (λ run. IsCharBoundary text.now (at + run.length)) }
{
    let run = delimiter_run(text, at)?;
    if is_lone_tilde(run.delimiter, run.length) && entities.double_tilde() {
        return None;
    }
    Some(run)
}
