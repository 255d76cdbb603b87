//! What holds of the blocks of a document (CommonMark 3 to 5; GFM Tables (extension)), whatever reads them.

ghost use Rattle.std.specs.Prelude.{◌≡◌, ◌≤◌, ℕ, suc, true, Some, None, if◌then◌else◌, List, [], ◌∷◌, ◌++◌, length, map, Contains};
ghost use Rattle.std.specs.Option.{option_or};
ghost use Rattle.mdtext.specs.EntityTable.{EntityTable};
ghost use Rattle.blockspec.specs.BlockLine.{BlockLine, document_line};
ghost use Rattle.blockspec.specs.BlockUnits.{begins, definitions_of, groups, units};
ghost use Rattle.blockspec.specs.LinkDefinitions.{first_definition};
ghost use Rattle.blockspec.specs.LineSummary.{begins_after, closed, line_added, no_summary, summary_of};
ghost use Rattle.blockspec.specs.Lists.{merged};
ghost use Rattle.blockspec.specs.Meetings.{IsBeginning, gap_after, joins_list, shift_groups};
ghost use Rattle.blockspec.specs.Nesting.{deep_within, first_too_deep};
ghost use Rattle.blockspec.specs.SummaryDepth.{lines_added, refused_line, sinks};
ghost use Rattle.blockspec.specs.UnitBegin.{begins_unit, shift_found, units_of};
ghost use Rattle.blockspec.specs.UnitReader.{lines_held, summary_held, unit_fault, units_handed};
ghost use Rattle.blockspec.specs.UnitTree.{FoundUnit};

/// Where a unit begins, it begins whatever comes later; the units before it are those of the lines before it alone, and
/// from it on they are those of the lines from it on alone, so many lines further on.
pub fn beginnings_stay()
    ensures { (entities : EntityTable) (front : List (List ℕ)) (line : List ℕ) (later other : List (List ℕ))
        → Contains (begins entities (front ++ line ∷ later)) (length front)
        → Contains (begins entities (front ++ line ∷ other)) (length front)
        × (units entities (front ++ line ∷ other) ≡ units entities front ++ map (shift_found (length front)) (units entities (line ∷ other))) }
{}

/// Two documents with equal lines from one on at which a unit begins in both have equal units from there on.
pub fn equal_ends_give_equal_units()
    ensures { (entities : EntityTable) (one other : List (List ℕ)) (line : List ℕ) (later : List (List ℕ))
        → Contains (begins entities (one ++ line ∷ later)) (length one)
        → Contains (begins entities (other ++ line ∷ later)) (length other)
        → (us : List FoundUnit) × (units entities (one ++ line ∷ later) ≡ units entities one ++ map (shift_found (length one)) us)
        × (units entities (other ++ line ∷ later) ≡ units entities other ++ map (shift_found (length other)) us) }
{}

/// The lines before a line tell whether a unit begins at it.
pub fn lines_before_tell_beginnings()
    ensures there { (entities : EntityTable) (front : List (List ℕ)) (line : List ℕ) (later : List (List ℕ))
        → IsBeginning front line → Contains (begins entities (front ++ line ∷ later)) (length front) }
    ensures only { (entities : EntityTable) (front : List (List ℕ)) (line : List ℕ) (later : List (List ℕ))
        → Contains (begins entities (front ++ line ∷ later)) (length front) → IsBeginning front line }
{}

/// From a line on that begins another item of the list that stands last, all is that of the lines from it on alone, so
/// many lines further on; and before it that of the lines before it, but that the two make one list.
pub fn items_meet()
    ensures { (entities : EntityTable) (front : List BlockLine) (line : BlockLine) (later : List BlockLine) → joins_list front line ≡ true
        → groups entities (front ++ line ∷ later)
        ≡ merged (groups entities front) (shift_groups (gap_after front) (length front) (groups entities (line ∷ later))) }
{}

/// The summary of some lines tells what they give, whether the next line begins a unit, and whether it is the first on which
/// a container begins that lies in too many others; where it is not, the summary of the lines with it follows. Of a
/// container a summary keeps that of what it holds alone.
pub fn summary_goes_on()
    ensures none { (entities : EntityTable) → summary_of entities [] ≡ no_summary }
    ensures gives { (entities : EntityTable) (front : List BlockLine) → closed entities (summary_of entities front) ≡ groups entities front }
    ensures begins { (entities : EntityTable) (front : List BlockLine) (line : BlockLine)
        → begins_after (summary_of entities front) line ≡ begins_unit front line }
    ensures sinks { (entities : EntityTable) (limit : ℕ) (front : List BlockLine) (line : BlockLine)
        → deep_within limit (front ++ line ∷ [])
        ≡ option_or (deep_within limit front) (if sinks limit (summary_of entities front) line then Some (length front) else None) }
    ensures adds { (entities : EntityTable) (limit : ℕ) (front : List BlockLine) (line : BlockLine) → deep_within limit (front ++ line ∷ []) ≡ None
        → summary_of entities (front ++ line ∷ []) ≡ line_added entities (suc limit) (summary_of entities front) line }
{}

/// Who keeps a summary alone, line by line, and allows so many containers to be open, holds that of the lines, and refuses the
/// first line on which a container begins that lies in too many others, whatever comes later.
pub fn summaries_tell_the_first_too_deep()
    ensures holds { (entities : EntityTable) (limit : ℕ) (lines : List BlockLine) → deep_within limit lines ≡ None
        → lines_added entities limit no_summary lines ≡ summary_of entities lines }
    ensures refuses { (entities : EntityTable) (limit : ℕ) (lines : List BlockLine) → refused_line entities limit no_summary 0 lines ≡ deep_within limit lines }
    ensures stays { (limit : ℕ) (lines more : List (List ℕ)) (n : ℕ) → first_too_deep limit lines ≡ Some n → first_too_deep limit (lines ++ more) ≡ Some n }
{}

/// Where the summary of the lines from the last unit's first line on is kept, and that unit is handed out when the line has
/// come that begins the next one, all that is handed out are the document's units, the line that is refused is the first on
/// which a container begins that lies in too many others, and one unit at most is held.
pub fn summaries_give_the_units()
    ensures units { (entities : EntityTable) (limit : ℕ) (lines : List (List ℕ)) → first_too_deep limit lines ≡ None
        → units_handed entities limit 0 0 no_summary (map document_line lines) ≡ units entities lines }
    ensures refuses { (entities : EntityTable) (limit : ℕ) (lines : List BlockLine) → unit_fault entities limit 0 no_summary lines ≡ deep_within limit lines }
    ensures holds { (entities : EntityTable) (limit : ℕ) (lines : List BlockLine) → deep_within limit lines ≡ None
        → summary_held entities limit no_summary lines ≡ summary_of entities (lines_held [] lines) }
    ensures one { (entities : EntityTable) (lines : List BlockLine) → length (units_of entities (lines_held [] lines)) ≤ 1 }
{}

/// Of units one after the other, the definition of a label that counts is the first units', where they have one.
pub fn first_units_define()
    ensures { (one other : List FoundUnit) (label : List ℕ) → first_definition (definitions_of (one ++ other)) label
        ≡ option_or (first_definition (definitions_of one) label) (first_definition (definitions_of other) label) }
{}
