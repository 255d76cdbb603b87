//! What holds of a document's lists item by item (CommonMark 5.2, 5.3), whatever reads them.

ghost use Rattle.std.specs.Prelude.{◌≡◌, ◌+◌, ◌-◌, ◌&&◌, Bool, true, not, ℕ, List, [], ◌∷◌, ◌++◌, length, map, Contains};
ghost use Rattle.mdtext.specs.EntityTable.{EntityTable};
ghost use Rattle.blockspec.specs.BlockLine.{BlockLine, document_line};
ghost use Rattle.blockspec.specs.BlockTree.{ListKind};
ghost use Rattle.blockspec.specs.BlockUnits.{groups, units};
ghost use Rattle.blockspec.specs.Lists.{Listed, items_before};
ghost use Rattle.blockspec.specs.Meetings.{gap_after, joins_list};
ghost use Rattle.blockspec.specs.UnitBegin.{shift_found};
ghost use Rattle.blockspec.specs.UnitTree.{FoundUnit};
ghost use Rattle.blockspec.specs.Joins.{joins};
ghost use Rattle.blockspec.specs.TopBlocks.{ItemList, ListItem, TopBlock, is_tight_list, items_behind, joined_blocks, nodes_of_items, top_blocks, top_group};

/// A document's blocks are the same where its lists keep their items apart.
pub fn lists_keep_their_items()
    ensures { (entities : EntityTable) (lines : List BlockLine) → map top_group (top_blocks entities lines) ≡ groups entities lines }
{}

/// The lines before a line tell whether a list may be parted at it: the line begins an item of the list that stands last behind them.
pub fn lines_before_tell_joins()
    ensures there { (entities : EntityTable) (front : List (List ℕ)) (line : List ℕ) (later : List (List ℕ))
        → joins_list (map document_line front) (document_line line) ≡ true → Contains (joins entities (front ++ line ∷ later)) (length front) }
    ensures only { (entities : EntityTable) (front : List (List ℕ)) (line : List ℕ) (later : List (List ℕ))
        → Contains (joins entities (front ++ line ∷ later)) (length front) → joins_list (map document_line front) (document_line line) ≡ true }
{}

/// Where a list may be parted, the blocks before the line are those of the lines before it alone, and those from it on are those of the lines from it on
/// alone; and the list that stands last before it goes on with the items from it on.
pub fn lists_go_on()
    ensures { (entities : EntityTable) (front : List (List ℕ)) (line : List ℕ) (later : List (List ℕ))
        → Contains (joins entities (front ++ line ∷ later)) (length front)
        → top_blocks entities (map document_line (front ++ line ∷ later))
        ≡ joined_blocks (gap_after (map document_line front)) (length front) (top_blocks entities (map document_line front))
        (top_blocks entities (map document_line (line ∷ later))) }
{}

/// Two documents with equal lines from one on at which a list may be parted in both have equal items and blocks from there on.
pub fn equal_ends_give_equal_items()
    ensures { (entities : EntityTable) (one other : List (List ℕ)) (line : List ℕ) (later : List (List ℕ))
        → Contains (joins entities (one ++ line ∷ later)) (length one)
        → Contains (joins entities (other ++ line ∷ later)) (length other)
        → (behind : List TopBlock)
        × (top_blocks entities (map document_line (one ++ line ∷ later))
        ≡ joined_blocks (gap_after (map document_line one)) (length one) (top_blocks entities (map document_line one)) behind)
        × (top_blocks entities (map document_line (other ++ line ∷ later))
        ≡ joined_blocks (gap_after (map document_line other)) (length other) (top_blocks entities (map document_line other)) behind) }
{}

/// Items behind those of a list make one list with them: it is tight if both are and no gap is between them, and begins as the first.
pub fn two_parts_are_one_list()
    ensures { (kind : ListKind) (first : ListItem) (later : List ListItem) (gap : Bool) (lines : ℕ) (item : ListItem) (items : List ListItem)
        → top_group (ItemList kind first (later ++ items_behind gap lines item items))
        ≡ record {
          begin = first.line;
          gap = first.gap;
          part = Listed kind (is_tight_list first later && not gap && is_tight_list item items)
              (items_before (nodes_of_items first later) (nodes_of_items item items));
        } }
{}

/// Where a list may be parted, the last unit of the lines before it and the first one from it on make one, with the texts and definitions of both; all other
/// units are those of the two parts.
pub fn units_go_on()
    ensures { (entities : EntityTable) (front : List (List ℕ)) (line : List ℕ) (later : List (List ℕ))
        → Contains (joins entities (front ++ line ∷ later)) (length front)
        → (before : List FoundUnit) × (last : FoundUnit) × (head : FoundUnit) × (whole : FoundUnit) × (behind : List FoundUnit)
        × (units entities front ≡ before ++ last ∷ [])
        × (units entities (line ∷ later) ≡ head ∷ behind)
        × (units entities (front ++ line ∷ later) ≡ before ++ whole ∷ map (shift_found (length front)) behind)
        × (whole.begin ≡ last.begin)
        × (whole.lines ≡ (head.lines + length front) - last.begin)
        × (whole.unit.texts ≡ last.unit.texts ++ head.unit.texts)
        × (whole.unit.definitions ≡ last.unit.definitions ++ head.unit.definitions) }
{}
