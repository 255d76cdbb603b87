//! What holds of any list of edits and new preludes.
ghost use Rattle.std.specs.Prelude.{◌≡◌, ℕ, Bool, Err, List};
ghost use Rattle.mdtext.specs.EntityTable.{EntityTable};
ghost use Rattle.htmlspec.specs.declared.options.Options.{Options};
ghost use Rattle.mdsource.specs.Setting.{Setting};
ghost use Rattle.mdsource.specs.Calls.{Call};
ghost use Rattle.mdsource.specs.declared.fault.EditFault.{EditFault};
ghost use Rattle.mdview.specs.Document.{Document, document, empty, nothing};
ghost use Rattle.mdview.specs.Outcome.{answer_of, outcome_of};
ghost use Rattle.mdview.specs.Run.{Turn, after, held_after};

/// After any list of edits and new preludes, each answered as `Preview::edit` or `Preview::set_prelude` answers, the preview is
/// that of the lines and the prelude which the accepted calls have put, whichever calls were refused and whyever. What it shows
/// is the view of these: each of its answers is that of `view_of`.
pub fn edits_leave_the_present_text()
    ensures { (entities : EntityTable) (options : Options) (turns : List Turn)
        → let setting : Setting = record { entities = entities; options = options } in
        held_after (empty entities options) turns ≡ document setting (after setting nothing turns) }
{}

/// A call that is refused changes nothing, whyever: where `Preview::edit` or `Preview::set_prelude` answers a fault, the preview is as it was, with all that
/// it shows.
pub fn refused_calls_change_nothing()
    ensures { (held new : Document) (call : Call) (fault : EditFault) (starved : Bool) → (answer_of (Err fault), new) ≡ outcome_of starved held call → new ≡ held }
{}
