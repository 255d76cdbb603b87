//! What holds of trees of inlines and of their events (CommonMark 6), whatever reads a text.

ghost use Rattle.std.specs.Prelude.{◌≡◌, ◌+◌, ◌≤◌, List, ◌++◌, length};
ghost use Rattle.inlinespec.specs.InlineEvents.{Event, rows_of, first_row, tree_of, tree_events};
ghost use Rattle.inlinespec.specs.InlineTree.{Inlines};
ghost use Rattle.inlinespec.specs.JoinedTexts.{AreJoined};
ghost use Rattle.inlinespec.specs.Nesting.{nest, IsPartOf};
ghost use Rattle.inlinespec.specs.SpanEnds.{EndSpans, most_open};

/// Spans lie no deeper in a part than in the whole.
pub fn parts_nest_no_deeper()
    ensures { (part whole : Inlines) → IsPartOf part whole → nest part ≤ nest whole }
{}

/// A tree whose texts are joined is the tree of its events.
pub fn events_make_the_tree()
    ensures { (tree : Inlines) → AreJoined tree → tree_of (tree_events tree) ≡ tree }
{}

/// Where events leave one row, as those of a reading do (`spans_end`), no place of them is deeper than their tree: at the place, the spans that are open
/// there and what follows it inside the innermost of them.
pub fn open_spans_nest()
    ensures { (front rest : List Event) → length (rows_of (front ++ rest)) ≡ 1
        → nest (first_row (rows_of rest)) + length (rows_of rest) ≤ 1 + nest (tree_of (front ++ rest)) }
{}

/// Where spans begin and end in pairs, as in a reading (`spans_are_paired`), their tree is as deep as there are spans open at once, at most.
pub fn a_tree_is_as_deep_as_spans_are_open()
    ensures { (events : List Event) → EndSpans 0 events → nest (tree_of events) ≡ most_open 0 events }
{}
