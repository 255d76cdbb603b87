//! Delimiter runs that are paired (CommonMark 6.2; GFM Strikethrough (extension)).

ghost use Rattle.std.specs.Prelude.{◌≡◌, ◌+◌, ◌-◌, ◌^◌, ◌<◌, [], ◌∷◌, ◌++◌, ℕ, List, All, OnOk, length};
ghost use Rattle.mdpair.specs.Neighbours.{byte_of};
ghost use Rattle.mdpair.specs.Matches.{IsOrdered};
ghost use Rattle.mdtext.specs.HtmlEscapes.{escaped};
ghost use Rattle.inlinespec.specs.Emphasis.{span_by};
ghost use Rattle.mdinline.specs.declared.tokens.Begun.{Begun as Held};
ghost use Rattle.mdinline.specs.held.PairedRuns.{ArePaired, IsPaired};
ghost use Rattle.mdinline.specs.SpanKinds.{span_of};

use crate::sinks::SpanKind;
use crate::tokens::{Begun, PairedRun};
use mdpair::{DelimiterChar, DelimiterRun, Match};
use std::alloc::AllocError;

/// Appends what is left of runs of which no match takes anything.
pub(crate) fn append_unpaired(
    runs: &[DelimiterRun],
    paired: &mut Vec<PairedRun>,
) -> Result<(), AllocError>
    ensures { OnOk result ((begun : List Held) → paired.old.items ≡ [] → ArePaired begun [] runs.now paired.new.items) }
{
    for run in runs {
        paired.push(unpaired_run(*run))?;
    }
    Ok(())
}

fn unpaired_run(run: DelimiterRun) -> PairedRun
    ensures { (begun : List Held) (n : ℕ) → IsPaired begun n [] run result }
{
    PairedRun {
        delimiter: run.delimiter,
        left: run.length,
        ends: 0,
        begins: 0,
        outermost: 0,
    }
}

/// Takes what these matches take of the runs.
pub(crate) fn take_all(
    runs: &mut Vec<PairedRun>,
    begun: &mut Vec<Begun>,
    matches: &[Match],
) -> Result<(), AllocError>
    ensures paired { OnOk result ((rs : List DelimiterRun) → All (IsOrdered (length rs)) matches.now → ArePaired begun.old.items [] rs runs.old.items
        → ArePaired begun.new.items matches.now rs runs.new.items) }
    ensures begun { OnOk result ((more : List Held) × (begun.new.items ≡ begun.old.items ++ more)) }
{
    for matched in matches {
        take(runs, begun, matched)?;
    }
    Ok(())
}

fn take(
    runs: &mut Vec<PairedRun>,
    begun: &mut Vec<Begun>,
    matched: &Match,
) -> Result<(), AllocError>
    ensures paired { OnOk result ((front : List Match) (rs : List DelimiterRun) → IsOrdered (length rs) matched.now → length front + 1 < 2 ^ 64
        → ArePaired begun.old.items front rs runs.old.items → ArePaired begun.new.items (front ++ matched.now ∷ []) rs runs.new.items) }
    ensures begun { OnOk result ((more : List Held) × (begun.new.items ≡ begun.old.items ++ more)) }
{
    if matched.opener < runs.len() {
        begin_span(&mut runs[matched.opener], begun, matched.width)?;
    }
    if matched.closer < runs.len() {
        end_span(&mut runs[matched.closer], matched.width);
    }
    Ok(())
}

/// A span of so many characters begins at a run.
fn begin_span(run: &mut PairedRun, begun: &mut Vec<Begun>, width: usize) -> Result<(), AllocError>
    ensures delimiter { run.new.delimiter ≡ run.old.delimiter }
    ensures left { OnOk result (run.new.left ≡ run.old.left - width) }
    ensures ends { run.new.ends ≡ run.old.ends }
    ensures begins { OnOk result (run.old.begins + 1 < 2 ^ 64 → run.new.begins ≡ run.old.begins + 1) }
    ensures outermost { OnOk result (run.new.outermost ≡ length begun.old.items) }
    ensures begun { OnOk result ((b : Held) × (begun.new.items ≡ begun.old.items ++ b ∷ [])
        × (span_of b.kind ≡ span_by run.old.delimiter width) × (b.inner ≡ run.old.outermost)) }
{
    let place = begun.len();
    begun.push(Begun {
        kind: kind_of(run.delimiter, width),
        inner: run.outermost,
    })?;
    run.left = run.left.saturating_sub(width);
    run.begins = run.begins.saturating_add(1);
    run.outermost = place;
    Ok(())
}

/// A span of so many characters ends at a run.
fn end_span(run: &mut PairedRun, width: usize)
    ensures delimiter { run.new.delimiter ≡ run.old.delimiter }
    ensures left { run.new.left ≡ run.old.left - width }
    ensures ends { run.old.ends + 1 < 2 ^ 64 → run.new.ends ≡ run.old.ends + 1 }
    ensures begins { run.new.begins ≡ run.old.begins }
    ensures outermost { run.new.outermost ≡ run.old.outermost }
{
    run.left = run.left.saturating_sub(width);
    run.ends = run.ends.saturating_add(1);
}

fn kind_of(delimiter: DelimiterChar, width: usize) -> SpanKind
    ensures { span_of result ≡ span_by delimiter width }
{
    match delimiter {
        DelimiterChar::Tilde => SpanKind::Strike,
        _ => if width == 2 {
            SpanKind::Strong
        } else {
            SpanKind::Emph
        }
    }
}

/// A delimiter character as text.
#[tactic(auto, unfolding(mdtext::specs::HtmlEscapes::escaped_byte))]
pub(crate) fn text_of(delimiter: DelimiterChar) -> &'static str
    ensures value { result.now ≡ byte_of delimiter ∷ [] }
    ensures plain { escaped result.now ≡ result.now }
{
    match delimiter {
        DelimiterChar::Asterisk => "*",
        DelimiterChar::Underscore => "_",
        DelimiterChar::Tilde => "~",
    }
}
