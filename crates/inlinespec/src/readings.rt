//! What holds of the readings of a text (CommonMark 6), whatever reads it.

ghost use Rattle.std.specs.Prelude.{◌≡◌, ℕ, List, ◌++◌, length};
ghost use Rattle.mdtext.specs.EntityTable.{EntityTable};
ghost use Rattle.inlinespec.specs.InlineEvents.{Event, rows_of};
ghost use Rattle.inlinespec.specs.JoinedTexts.{AreJoined};
ghost use Rattle.inlinespec.specs.LinkTails.{Table};
ghost use Rattle.inlinespec.specs.SpanEnds.{EndSpans};
ghost use Rattle.inlinespec.specs.TextReading.{Item, IsReading, reading};
ghost use Rattle.inlinespec.specs.TextTree.{events_of, inl, asked, Agree};

/// Tables that agree on the labels that were looked up give one reading, so one tree and one set of labels.
pub fn only_asked_labels_matter()
    ensures reading { (entities : EntityTable) (one other : Table) (text : List ℕ) → Agree one other (asked entities one text)
        → reading entities one text ≡ reading entities other text }
    ensures tree { (entities : EntityTable) (one other : Table) (text : List ℕ) → Agree one other (asked entities one text)
        → (inl entities one text ≡ inl entities other text) × (asked entities one text ≡ asked entities other text) }
{}

/// A text has one reading, `reading`, and no other.
pub fn there_is_one_reading()
    ensures { (entities : EntityTable) (table : Table) (text : List ℕ) → IsReading entities table text (reading entities table text)
        × ((items : List Item) → IsReading entities table text items → items ≡ reading entities table text) }
{}

/// In the tree of a text no text is empty, and no two stand side by side.
pub fn texts_are_joined()
    ensures { (entities : EntityTable) (table : Table) (text : List ℕ) → AreJoined (inl entities table text) }
{}

/// Each span that begins in a text's reading also ends in it, after it began, and nothing else ends: whatever events follow, the reading's events in
/// front of them neither close a row of theirs nor begin one.
pub fn spans_end()
    ensures { (entities : EntityTable) (table : Table) (text : List ℕ) (rest : List Event)
        → length (rows_of (events_of (reading entities table text) ++ rest)) ≡ length (rows_of rest) }
{}

/// In a text's reading spans begin and end in pairs.
pub fn spans_are_paired()
    ensures { (entities : EntityTable) (table : Table) (text : List ℕ) → EndSpans 0 (events_of (reading entities table text)) }
{}
