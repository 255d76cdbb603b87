//! What holds of link labels (CommonMark 6.3), whatever reads them.

ghost use Rattle.std.specs.Prelude.{◌≡◌, ℕ, List, Some};
ghost use Rattle.std.specs.Str.{IsUtf8};
ghost use Rattle.mdscan.specs.LinkLabel.{label_at};
ghost use Rattle.mdscan.specs.Spans.{IsSpanOf, part};
ghost use Rattle.mdscan.specs.declared.spans.Span.{Span};
ghost use Rattle.mdtext.specs.Labels.{collapsed, folded, label_of};

/// The rule of labels is one: what stands between the brackets of a label that a text begins with is a label by itself.
pub fn bracketed_text_is_a_label()
    ensures { (text : List ℕ) (inside : Span) → IsUtf8 text → IsSpanOf text inside → label_at text 0 ≡ Some inside
        → label_of (part text inside) ≡ Some (folded (collapsed (part text inside))) }
{}
