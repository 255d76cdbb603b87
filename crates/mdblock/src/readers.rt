//! The reading of a text line by line, and the handing out of its units.

ghost use Rattle.std.specs.Prelude.{List, [], ℕ, ◌≡◌, ◌+◌, ◌-◌, ◌*◌, ◌^◌, ◌<◌, ◌≤◌, false, true, None, Some, IfOk, IfSome, OnOk, OnErr, IsErrOf, ◌∷◌, ◌++◌, ◌||◌, drop, is_some, length, min, unwrap_or};
ghost use Rattle.std.specs.Option.{option_map, option_to_list};
ghost use Rattle.mdtext.specs.Counted.{counted};
ghost use Rattle.mdblock.specs.declared.faults.BlockFault.TheVariants.{Failed, NestedTooDeep};
ghost use Rattle.mdblock.specs.declared.faults.LineFault.TheVariants.{TooDeep};
ghost use Rattle.blockspec.specs.BlockLine.{document_line};
ghost use Rattle.blockspec.specs.BlockUnits.{units};
ghost use Rattle.blockspec.specs.Nesting.{first_too_deep};
ghost use Rattle.blockspec.specs.SummaryDepth.{sinks};
ghost use Rattle.mdblock.specs.FoundLists.{AreJoinsOf, StandsForUnit, found_unit, join_mark};
ghost use Rattle.mdblock.specs.Spliced.{IsFrontOf};
ghost use Rattle.mdblock.specs.held.Continuations.{IsBeginningOf, IsContinuationOf, ContinuesOpen, begins_item};
ghost use Rattle.mdblock.specs.held.EndedItems.{IsNextIn};
ghost use Rattle.mdblock.specs.held.LinesAdded.{ContinuesLevel};
ghost use Rattle.mdblock.specs.held.Following.{moved_reading};
ghost use Rattle.mdblock.specs.held.HeldLevel.{HoldsSummary, GivesUnit, is_parted_last, list_between};
ghost use Rattle.blockspec.specs.LineSummary.{Summary, no_summary};
ghost use Rattle.blockspec.specs.Joins.{is_joined};
ghost use Rattle.mdblock.specs.held.ReaderState.{AreKept, held_begin, held_front, held_joined};
ghost use Rattle.mdblock.specs.held.Reads.{Reads, BeginsUnit, HandsOn, SinksBehind, handed, held_marks, open_begin};
ghost use Rattle.mdtext.specs.EntityTable.{EntityTable};

use crate::block_starts::{BlockStart, beginning};
use crate::faults::{BlockFault, LineFault};
use crate::gathering::Gathering;
use crate::lines::Line;
use crate::open_blocks::{Continuation, Level};
use crate::units::{Found, Join};
use mdtext::{Count, Entities};
use std::alloc::{AllocError, Global};
use std::marker::Model;
use std::mem;

/// What is read and not handed out yet.
#[derive(Drop)]
struct OpenUnit<'e> {
    level: Level,
    gathering: Gathering<'e>,
    begin: Option<usize>,
    /// The items of the unit but its first one.
    joins: Vec<Join>,
    /// Whether the last line began one of them.
    joined: bool,
}

/// Reads a text line by line, and hands out each unit when the line has come that begins the next one.
#[derive(Drop)]
pub struct Reader<'e> {
    alloc: Global,
    entities: &'e Entities,
    limit: usize,
    fed: usize,
    held: Option<OpenUnit<'e>>,
}

impl<'e> Model for Reader<'e> {
    ghost use Rattle.std.specs.Prelude.{◌≡◌, IfSome, option_map};
    ghost use Rattle.mdblock.specs.held.ReaderState.{ReaderState, unit_so_far, AreKept};

    ghost Value = { ReaderState };

    ghost use Rattle.mdblock.specs.contracts.open_blocks.Level as level;
    ghost use Rattle.std.specs.Coded.{codes};
    ghost use Rattle.mdleaf.specs.DefinedLinks.{definition_code};
    ghost use Rattle.mdblock.specs.FoundLists.{mark_code};

    ghost coded = { Prim.hlevel (codes, level.the_row.coded, definition_code, mark_code) };

    ghost view = { λ r. record { entities = r.entities.now; limit = r.limit; fed = r.fed; held = option_map unit_so_far r.held } };

    ghost invariant = { λ r. IfSome r.held (λ held. AreKept held × (held.gathering.entities.now ≡ r.entities.now)) };
}

impl<'e> Reader<'e> {
    /// A reader that has read nothing. References are read by these entities. So many containers, 1 to 256, may be open inside
    /// one another; a list counts nothing. Takes no memory.
    pub fn new(alloc: Global, entities: &'e Entities, limit: usize) -> Reader<'e>
        requires some { 1 ≤ limit }
        requires few { limit ≤ 256 }
        ensures fed { result.fed ≡ 0 }
        ensures reads { Reads limit entities.now result [] }
    {
        Reader {
            alloc,
            entities,
            limit,
            fed: 0,
            held: Some(OpenUnit::new(alloc, entities, None)),
        }
    }

    /// Counts the next line, which has no line ending, and reads it. Answers the unit before the one that the line begins. A line has fewer than 2^62
    /// bytes, and fewer than `usize::MAX` lines have been read.
    ///
    /// `NestedTooDeep` where a container of the line lies in too many others, `NoMemory` where a growth is refused. Such a fault stays: from then on the
    /// answer is `Failed`, and nothing is handed out. It is inlined: most lines end no unit, and a unit is a large answer.
    #[inline(always)]
    pub fn line<C: Count>(&mut self, text: &str, count: &mut C) -> Result<Option<Found>, BlockFault>
        requires short { 4 * length text.now < 2 ^ 64 }
        requires few { self.old.fed < usize.MAX }
        ensures read { OnOk result (self.new.fed ≡ self.old.fed + 1) }
        ensures goes_on { OnOk result (is_some self.new.held ≡ true) }
        ensures fault { OnErr result (self.new ≡ record self.old { held = None }) }
        ensures failed { self.old.held ≡ None → IsErrOf result Failed }
        ensures failed_before { IsErrOf result Failed → self.old.held ≡ None }
        ensures reads { OnOk result ((limit : ℕ) (e : EntityTable) (ls : List (List ℕ)) → Reads limit e self.old ls → Reads limit e self.new (ls ++ text.now ∷ [])) }
        ensures hands { IfOk result (λ found. (limit : ℕ) (e : EntityTable) (ls : List (List ℕ)) → Reads limit e self.old ls
            → handed e (ls ++ text.now ∷ []) ≡ handed e ls ++ option_to_list (option_map found_unit found)) }
        ensures joins { IfOk result (λ found. (limit : ℕ) (e : EntityTable) (ls : List (List ℕ)) → Reads limit e self.old ls → IfSome found (AreJoinsOf e ls)) }
        ensures stands { IfOk result (λ found. (limit : ℕ) (e : EntityTable) (ls : List (List ℕ)) → Reads limit e self.old ls
            → IfSome found (λ f. StandsForUnit e f (drop f.begin ls))) }
        ensures deep { IsErrOf result NestedTooDeep → (limit : ℕ) (e : EntityTable) (ls : List (List ℕ)) → Reads limit e self.old ls
            → first_too_deep limit (ls ++ text.now ∷ []) ≡ Some (length ls) }
        ensures lines { C.lines count.new ≡ counted (C.lines count.old) }
        ensures inlines { C.inlines count.new ≡ C.inlines count.old }
    {
        count.line();
        let Some(held) = &mut self.held else {
            return Err(BlockFault::Failed);
        };
        match held.read(text, self.fed, self.limit) {
            Ok(None) => {
                self.fed += 1;
                Ok(None)
            }
            Ok(Some(found)) => {
                self.fed += 1;
                Ok(Some(found))
            }
            Err(fault) => {
                self.held = None;
                Err(fault.told())
            }
        }
    }

    /// The last unit, if there is one. `NoMemory` where a growth is refused, `Failed` after a fault; that containers lie too deep is answered by `line` alone.
    pub fn finish(self) -> Result<Option<Found>, BlockFault>
        ensures failed { self.entry.held ≡ None → IsErrOf result Failed }
        ensures failed_before { IsErrOf result Failed → self.entry.held ≡ None }
        ensures shallow { IsErrOf result NestedTooDeep → ⊥ }
        ensures hands { IfOk result (λ found. (limit : ℕ) (e : EntityTable) (ls : List (List ℕ)) → Reads limit e self.entry ls
            → units e ls ≡ handed e ls ++ option_to_list (option_map found_unit found)) }
        ensures joins { IfOk result (λ found. (limit : ℕ) (e : EntityTable) (ls : List (List ℕ)) → Reads limit e self.entry ls → IfSome found (AreJoinsOf e ls)) }
        ensures stands { IfOk result (λ found. (limit : ℕ) (e : EntityTable) (ls : List (List ℕ)) → Reads limit e self.entry ls
            → IfSome found (λ f. StandsForUnit e f (drop f.begin ls))) }
    {
        let fed = self.fed;
        match self.held {
            Some(held) => Ok(held.into_unit(fed)?),
            None => Err(BlockFault::Failed),
        }
    }

    /// How many lines were read before any fault. Takes no memory.
    pub fn fed(&self) -> usize
        ensures { result ≡ self.now.fed }
    {
        self.fed
    }

    /// How many lines were read before the first line of the unit that is not handed out yet; none where there is no such unit, and after a fault.
    /// Takes no memory.
    pub fn open_at(&self) -> Option<usize>
        ensures value { result ≡ held_begin self.now.held }
        ensures open { (limit : ℕ) (e : EntityTable) (ls : List (List ℕ)) → Reads limit e self.now ls → result ≡ open_begin e ls }
    {
        match &self.held {
            Some(held) => held.begin,
            None => None,
        }
    }

    /// Whether the last line that was read begins an item of a top-level list which is not the list's first one; false before any line, and after a
    /// fault. Takes no memory.
    pub fn joined(&self) -> bool
        ensures value { result ≡ held_joined self.now.held }
        ensures joined { (limit : ℕ) (e : EntityTable) (ls : List (List ℕ)) → Reads limit e self.now ls → result ≡ is_joined e ls }
    {
        match &self.held {
            Some(held) => held.joined,
            None => false,
        }
    }
}

impl<'e> Reader<'e> {
    pub(crate) fn alloc(&self) -> Global {
        self.alloc
    }

    /// Goes on as if so many lines more had been read before all that were.
    pub(crate) fn move_on(&mut self, lines: usize)
        requires { lines + self.old.fed ≤ usize.MAX }
        ensures moved { (limit : ℕ) (e : EntityTable) (ls : List (List ℕ)) → Reads limit e self.old ls → self.new ≡ moved_reading lines self.old }
        ensures fed { self.new.fed ≡ lines + self.old.fed }
        ensures held { is_some self.new.held ≡ is_some self.old.held }
    {
        self.fed = lines + self.fed;
        let Some(held) = &mut self.held else {
            return;
        };
        held.begin = moved_begin(held.begin, lines);
    }

    /// The list that is read, without the item that the last line began.
    pub(crate) fn into_front(self) -> Result<Found, AllocError>
        requires { held_joined self.held ≡ true }
        ensures lines { IfOk result (λ front. front.lines ≤ self.entry.fed) }
        ensures front { IfOk result (λ front. (limit : ℕ) (e : EntityTable) (xs : List (List ℕ)) (l : List ℕ) → Reads limit e self.entry (xs ++ l ∷ [])
            → IsFrontOf e front xs l) }
    {
        let fed = self.fed;
        match self.held {
            Some(held) => {
                let begin = held.begin.unwrap_or(0);
                held.into_front(begin, fed)
            }
            None => unreachable!(),
        }
    }
}

/// So many lines further, as far as numbers reach.
fn moved_begin(begin: Option<usize>, lines: usize) -> Option<usize>
    ensures { result ≡ option_map (λ at. min (lines + at) usize.MAX) begin }
{
    match begin {
        Some(at) => Some(lines.saturating_add(at)),
        None => None,
    }
}

impl<'e> OpenUnit<'e> {
    fn new(alloc: Global, entities: &'e Entities, begin: Option<usize>) -> OpenUnit<'e>
        ensures empty { HoldsSummary result no_summary }
        ensures kept { AreKept result }
        ensures begin { result.begin ≡ begin }
        ensures joined { result.joined ≡ false }
        ensures joins { result.joins.items ≡ [] }
        ensures entities { result.gathering.entities.now ≡ entities.now }
    {
        OpenUnit {
            level: Level::new(alloc, false),
            gathering: Gathering::new(alloc, entities),
            begin,
            joins: Vec::new(alloc),
            joined: false,
        }
    }

    /// Reads a line before which `fed` lines were read, where so many containers may be open inside one another. It is inlined, as `Reader::line` is.
    #[inline(always)]
    fn read(&mut self, text: &str, fed: usize, limit: usize) -> Result<Option<Found>, LineFault>
        requires short { 4 * length text.now < 2 ^ 64 }
        requires kept { AreKept self.old }
        ensures kept { OnOk result (AreKept self.new) }
        ensures entities { OnOk result (self.new.gathering.entities.now ≡ self.old.gathering.entities.now) }
        ensures next { IfOk result (λ found. HandsOn limit fed self.old (document_line text.now) found self.new) }
        ensures deep { IsErrOf result TooDeep → SinksBehind limit self.old (document_line text.now) }
    {
        let mut line = Line::new(text);
        if self.level.is_shut() {
            if line.is_blank() {
                self.level.pass_blank();
                self.joined = false;
                return Ok(None);
            }
            let opening = beginning(&line);
            return self.begin_unit(&mut line, opening, fed, limit);
        }
        if self.level.is_followed_by(&line) {
            self.level.read(&mut line, limit, &mut self.gathering)?;
            self.joined = false;
            return Ok(None);
        }
        let continuation = self.level.continuation(&line);
        if continuation.begins_block(&line) {
            return self.begin_unit(&mut line, continuation.opening(), fed, limit);
        }
        if continuation.begins_item() {
            self.next_item(&mut line, continuation, fed, limit)?;
            return Ok(None);
        }
        self.level
            .add(&mut line, continuation, limit, &mut self.gathering)?;
        self.joined = false;
        Ok(None)
    }

    /// Reads the first line of the next item of the unit, behind all that the items before it give.
    fn next_item(
        &mut self,
        line: &mut Line,
        continuation: Continuation,
        fed: usize,
        limit: usize,
    ) -> Result<(), LineFault>
        requires kept { AreKept self.old }
        requires continuation { IsContinuationOf line.old continuation }
        requires step { ContinuesOpen self.old.level.last line.old continuation }
        requires last { ContinuesLevel self.old.level line.old continuation }
        requires next { IsNextIn self.old.level.last line.old continuation }
        requires item { begins_item continuation ≡ true }
        requires whole { line.old.lazy ≡ false }
        ensures kept { OnOk result (AreKept self.new) }
        ensures entities { OnOk result (self.new.gathering.entities.now ≡ self.old.gathering.entities.now) }
        ensures next { OnOk result (HandsOn limit fed self.old line.old None self.new) }
        ensures deep { IsErrOf result TooDeep → SinksBehind limit self.old line.old }
    {
        self.level.end_item(&mut self.gathering)?;
        let join = self.join_after(fed);
        self.joins.push(join)?;
        self.level
            .add(line, continuation, limit, &mut self.gathering)?;
        self.joined = true;
        Ok(())
    }

    /// An item that begins after `fed` lines, where the items before it are over.
    fn join_after(&self, fed: usize) -> Join
        ensures { join_mark result ≡ record {
          line = fed - unwrap_or self.now.begin 0;
          texts = length self.now.gathering.texts.items;
          definitions = length self.now.gathering.definitions.items;
          loose = is_parted_last self.now.level.last || self.now.level.blank;
        } }
    {
        Join {
            line: fed.saturating_sub(self.begin.unwrap_or(0)),
            texts: self.gathering.texts_len(),
            definitions: self.gathering.definitions_len(),
            loose: self.level.is_loose_behind(),
        }
    }

    /// Reads the first line of the next unit, and takes out the one before it.
    fn begin_unit(
        &mut self,
        line: &mut Line,
        opening: Option<BlockStart>,
        fed: usize,
        limit: usize,
    ) -> Result<Option<Found>, LineFault>
        requires kept { AreKept self.old }
        requires opening { IsBeginningOf line.old opening }
        ensures kept { OnOk result (AreKept self.new) }
        ensures entities { OnOk result (self.new.gathering.entities.now ≡ self.old.gathering.entities.now) }
        ensures begins { IfOk result (λ found. BeginsUnit limit fed self.old line.old found self.new) }
        ensures deep { IsErrOf result TooDeep → sinks limit no_summary line.old ≡ true }
    {
        let found = self.take_unit(fed)?;
        self.level.begin(line, opening, limit, &mut self.gathering)?;
        Ok(found)
    }

    /// Takes the unit that is held; the next one begins after `fed` lines. It is inlined, as all that hands a unit on, so that the unit is not copied.
    #[inline(always)]
    fn take_unit(&mut self, fed: usize) -> Result<Option<Found>, AllocError>
        requires { AreKept self.old }
        ensures given { IfOk result (λ found. GivesUnit self.old fed found) }
        ensures kept { OnOk result (AreKept self.new) }
        ensures empty { OnOk result (HoldsSummary self.new no_summary) }
        ensures begin { OnOk result (self.new.begin ≡ Some fed) }
        ensures joined { OnOk result (self.new.joined ≡ false) }
        ensures joins { OnOk result (self.new.joins.items ≡ []) }
        ensures entities { OnOk result (self.new.gathering.entities.now ≡ self.old.gathering.entities.now) }
    {
        let begin = mem::replace(&mut self.begin, Some(fed));
        let found = self.take_found(begin.unwrap_or(0), fed)?;
        match begin {
            None => Ok(None),
            Some(_) => Ok(Some(found)),
        }
    }

    /// Takes all that is held as a unit with its first line there, which ends after `fed` lines, and leaves nothing. Inlined, as `take_unit`.
    #[inline(always)]
    fn take_found(&mut self, begin: usize, fed: usize) -> Result<Found, AllocError>
        requires { AreKept self.old }
        ensures gives { IfOk result (λ found. (s : Summary) → HoldsSummary self.old s
            → found ≡ list_between self.old.gathering.entities.now s (held_marks self.old) fed begin) }
        ensures lines { IfOk result (λ found. found.lines ≤ fed) }
        ensures kept { OnOk result (AreKept self.new) }
        ensures empty { OnOk result (HoldsSummary self.new no_summary) }
        ensures begin { self.new.begin ≡ self.old.begin }
        ensures joined { OnOk result (self.new.joined ≡ false) }
        ensures joins { OnOk result (self.new.joins.items ≡ []) }
        ensures entities { OnOk result (self.new.gathering.entities.now ≡ self.old.gathering.entities.now) }
    {
        let parted = self.level.is_parted();
        let blocks = self.level.take_blocks(false, &mut self.gathering)?;
        let (definitions, texts) = self.gathering.take_parts();
        let joins = mem::replace(&mut self.joins, Vec::new(self.gathering.alloc()));
        self.joined = false;
        Ok(Found::new(
            begin,
            fed.saturating_sub(begin),
            blocks,
            definitions,
            texts,
            joins,
            parted,
        ))
    }

    /// The unit that is held, which ends after `fed` lines. Inlined, as `take_unit`.
    #[inline(always)]
    fn into_unit(mut self, fed: usize) -> Result<Option<Found>, AllocError>
        requires { AreKept self }
        ensures { IfOk result (λ found. GivesUnit self.entry fed found) }
    {
        self.take_unit(fed)
    }

    /// What is held as a unit with its first line there, which ends after `fed` lines, without the item that is open.
    fn into_front(mut self, begin: usize, fed: usize) -> Result<Found, AllocError>
        requires { AreKept self }
        ensures { IfOk result (λ front. front ≡ held_front self.entry begin fed) }
    {
        let blocks = self.level.into_front()?;
        let (definitions, texts) = self.gathering.take_parts();
        let lines = fed.saturating_sub(begin);
        Ok(Found::new(begin, lines, blocks, definitions, texts, self.joins, false))
    }
}
