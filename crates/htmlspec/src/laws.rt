//! What holds of HTML that is written from the events of a text.

ghost use Rattle.std.specs.Prelude.{◌≡◌, List, [], false};
ghost use Rattle.inlinespec.specs.InlineEvents.{Event, tree_of};
ghost use Rattle.inlinespec.specs.SpanEnds.{EndSpans};
ghost use Rattle.htmlspec.specs.declared.options.Options.{Options};
ghost use Rattle.htmlspec.specs.InlineHtml.{inlines_html};
ghost use Rattle.htmlspec.specs.InlineWriting.{writing, after_events};

/// Events in which spans begin and end in pairs are written as the HTML of their tree.
pub fn events_are_written_as_their_tree()
    ensures { (options : Options) (events : List Event) → EndSpans 0 events
        → after_events options (writing [] [] false) events ≡ writing (inlines_html options (tree_of events)) [] false }
{}
