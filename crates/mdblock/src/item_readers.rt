//! A reader that may begin at a later item of a list that was found: the items before that one stay where they are (CommonMark 5.3).

ghost use Rattle.std.specs.Prelude.{List, [], ℕ, ◌≡◌, ◌+◌, ◌-◌, ◌*◌, ◌^◌, ◌<◌, ◌≤◌, ◌∷◌, ◌++◌, true, drop, length};
ghost use Rattle.std.specs.Prelude.{None, Some, IfOk, IfSome, OnOk, IsErrOf, is_some};
ghost use Rattle.std.specs.Option.{option_map, option_to_list};
ghost use Rattle.mdtext.specs.Counted.{counted};
ghost use Rattle.mdtext.specs.EntityTable.{EntityTable};
ghost use Rattle.blockspec.specs.BlockUnits.{units};
ghost use Rattle.blockspec.specs.Joins.{is_joined};
ghost use Rattle.blockspec.specs.Nesting.{first_too_deep};
ghost use Rattle.mdblock.specs.Bases.{base_view};
ghost use Rattle.mdblock.specs.CountedLines.{counted_by};
ghost use Rattle.mdblock.specs.FoundLists.{StandsForUnit, found_unit};
ghost use Rattle.mdblock.specs.Fronted.{IsInOrder, base_mark, fronted_list};
ghost use Rattle.mdblock.specs.Insets.{MayFit};
ghost use Rattle.mdblock.specs.Seams.{IsSplicedIn, seam_front, seam_list};
ghost use Rattle.mdblock.specs.Spliced.{mark_at};
ghost use Rattle.mdblock.specs.held.Following.{Follows, IsPast, MeetsIn, fed_in, moved_reading};
ghost use Rattle.mdblock.specs.held.ReaderState.{held_joined};
ghost use Rattle.mdblock.specs.held.Reads.{Reads, handed, open_begin};
ghost use Rattle.mdblock.specs.declared.faults.BlockFault.TheVariants.{Failed, NestedTooDeep};

use crate::faults::BlockFault;
use crate::fronting::fronted;
use crate::readers::Reader;
use crate::seams::{Base, Seam};
use crate::splicing::join_at;
use crate::units::{Found, Unit};
use mdtext::{Count, Entities, NoMemory};
use std::alloc::{AllocError, Global};
use std::marker::Model;

/// Reads a text line by line, as [`Reader`] does, and may begin at a later item of a list that was found: the lines before that item are not read, and the
/// list's items before it are copied only where the list ends.
#[derive(Drop)]
pub struct ItemReader<'e, 'o> {
    /// The list that is gone on in, until it ends.
    base: Option<Base<'o>>,
    reader: Reader<'e>,
}

impl<'e, 'o> Model for ItemReader<'e, 'o> {
    ghost use Rattle.std.specs.Prelude.{◌+◌, ◌^◌, ◌<◌, ◌≤◌, IfSome, length, option_map};
    ghost use Rattle.std.specs.Coded.{codes};
    ghost use Rattle.mdblock.specs.contracts.open_blocks.Level as level;
    ghost use Rattle.mdleaf.specs.DefinedLinks.{definition_code};
    ghost use Rattle.mdblock.specs.FoundLists.{mark_code};
    ghost use Rattle.mdblock.specs.Bases.{base_view};
    ghost use Rattle.mdblock.specs.Fronted.{base_code, base_mark};
    ghost use Rattle.mdblock.specs.held.Following.{ItemReading};

    ghost Value = { ItemReading };

    ghost coded = { Prim.hlevel (codes, level.the_row.coded, definition_code, mark_code, base_code) };

    ghost view = { λ r. record { base = option_map base_view r.base; reading = r.reader } };

    ghost invariant = { λ r. IfSome r.base (λ b. (b.join < length b.list.now.marks) × (1 ≤ r.reader.fed)
        × ((base_mark (base_view b)).line + r.reader.fed < 2 ^ 64)) };
}

impl<'e, 'o> ItemReader<'e, 'o> {
    /// A reader that has read nothing. References are read by these entities. So many containers, 1 to 256, may be open inside
    /// one another; a list counts nothing. Takes no memory.
    pub fn new(alloc: Global, entities: &'e Entities, limit: usize) -> ItemReader<'e, 'o>
        requires some { 1 ≤ limit }
        requires few { limit ≤ 256 }
        ensures fed { fed_in result ≡ 0 }
        ensures base { result.base ≡ None }
        ensures reads { Follows limit entities.now result [] }
    {
        ItemReader {
            base: None,
            reader: Reader::new(alloc, entities, limit),
        }
    }

    /// A reader that goes on inside a list that was found: it stands for the list's lines up to its join `k`, which are not read, and has read that line,
    /// which is `text`. So many containers, 1 to 256, may be open inside one another. Nothing, where the list has no join `k`, and where the line begins too
    /// many containers; where the list has another line there, nothing is told of what is read. Counts each line that stays, and the line that it reads, as it
    /// is done; where there is nothing, no others (CommonMark 5.3).
    pub fn inside<C: Count>(
        alloc: Global,
        entities: &'e Entities,
        limit: usize,
        old: &'o Found,
        k: usize,
        text: &str,
        count: &mut C,
    ) -> Result<Option<ItemReader<'e, 'o>>, AllocError>
        requires some { 1 ≤ limit }
        requires few { limit ≤ 256 }
        requires short { 4 * length text.now < 2 ^ 64 }
        ensures fed { IfOk result (λ begun. IfSome begun (λ reader. fed_in reader ≡ (mark_at old.now.marks k).line + 1)) }
        ensures base { IfOk result (λ begun. IfSome begun (λ reader. reader.base ≡ Some (record { list = old.now; join = k }))) }
        ensures reads { IfOk result (λ begun. IfSome begun (λ reader. (zs ys : List (List ℕ)) → StandsForUnit entities.now old.now (zs ++ text.now ∷ ys)
            → (mark_at old.now.marks k).line ≡ length zs → first_too_deep limit (zs ++ text.now ∷ ys) ≡ None
            → Follows limit entities.now reader (zs ++ text.now ∷ []))) }
        ensures given { IfOk result (λ begun. (zs ys : List (List ℕ)) → k < length old.now.marks → StandsForUnit entities.now old.now (zs ++ text.now ∷ ys)
            → (mark_at old.now.marks k).line ≡ length zs → first_too_deep limit (zs ++ text.now ∷ ys) ≡ None → is_some begun ≡ true) }
        ensures lines { IfOk result (λ begun. IfSome begun (λ reader. C.lines count.new ≡ counted_by (fed_in reader) (C.lines count.old))) }
        ensures no_more { C.lines count.new ≤ C.lines count.old + ((mark_at old.now.marks k).line + 1) }
        ensures inlines { C.inlines count.new ≡ C.inlines count.old }
    {
        let Some(base) = base_at(old, k) else {
            return Ok(None);
        };
        count_lines(line_of(base), count);
        let mut reader = Reader::new(alloc, entities, limit);
        match reader.line(text, count) {
            Ok(None) => Ok(Some(ItemReader {
                base: Some(base),
                reader,
            })),
            Ok(Some(_)) => Ok(None),
            Err(BlockFault::NestedTooDeep) => Ok(None),
            Err(BlockFault::NoMemory) => Err(AllocError),
            Err(BlockFault::Failed) => Ok(None),
        }
    }

    /// Counts the next line, which has no line ending, and reads it. Answers the unit before the one that the line begins. A line has fewer than 2^62
    /// bytes, and fewer than `usize::MAX` lines have been read or stay. Where the unit goes on in a list that was found, its items that stay are copied.
    ///
    /// `NestedTooDeep` where a container of the line lies in too many others, `NoMemory` where a growth is refused. Behind a fault nothing is told of what
    /// is read. It is inlined: most lines end no unit, and a unit is a large answer.
    #[inline(always)]
    pub fn line<C: Count>(&mut self, text: &str, count: &mut C) -> Result<Option<Found>, BlockFault>
        requires short { 4 * length text.now < 2 ^ 64 }
        requires few { fed_in self.old < usize.MAX }
        ensures read { OnOk result (fed_in self.new ≡ fed_in self.old + 1) }
        ensures goes_on { OnOk result (is_some self.new.reading.held ≡ true) }
        ensures failed_before { IsErrOf result Failed → self.old.reading.held ≡ None }
        ensures reads { OnOk result ((limit : ℕ) (e : EntityTable) (ls : List (List ℕ)) → Follows limit e self.old ls
            → Follows limit e self.new (ls ++ text.now ∷ [])) }
        ensures hands { IfOk result (λ found. (limit : ℕ) (e : EntityTable) (ls : List (List ℕ)) → Follows limit e self.old ls
            → handed e (ls ++ text.now ∷ []) ≡ handed e ls ++ option_to_list (option_map found_unit found)) }
        ensures stands { IfOk result (λ found. (limit : ℕ) (e : EntityTable) (ls : List (List ℕ)) → Follows limit e self.old ls
            → IfSome found (λ f. StandsForUnit e f (drop f.begin ls))) }
        ensures deep { IsErrOf result NestedTooDeep → (limit : ℕ) (e : EntityTable) (ls : List (List ℕ)) → Follows limit e self.old ls
            → first_too_deep limit (ls ++ text.now ∷ []) ≡ Some (length ls) }
        ensures past { OnOk result (IsPast self.new) }
        ensures base { OnOk result (IfSome self.new.base (λ b. self.old.base ≡ Some b)) }
        ensures lines { C.lines count.new ≡ counted (C.lines count.old) }
        ensures inlines { C.inlines count.new ≡ C.inlines count.old }
    {
        match self.reader.line(text, count) {
            Ok(None) => Ok(None),
            Ok(Some(part)) => match self.base {
                None => Ok(Some(part)),
                Some(base) => {
                    self.base = None;
                    let whole = ended(base, &mut self.reader, &part)?;
                    Ok(Some(whole))
                }
            },
            Err(fault) => Err(fault),
        }
    }

    /// The last unit, if there is one. `NoMemory` where a growth is refused, `Failed` after a fault; that containers lie too deep is answered by `line` alone.
    pub fn finish(self) -> Result<Option<Found>, BlockFault>
        ensures failed_before { IsErrOf result Failed → self.entry.reading.held ≡ None }
        ensures shallow { IsErrOf result NestedTooDeep → ⊥ }
        ensures hands { IfOk result (λ found. (limit : ℕ) (e : EntityTable) (ls : List (List ℕ)) → Follows limit e self.entry ls
            → units e ls ≡ handed e ls ++ option_to_list (option_map found_unit found)) }
        ensures stands { IfOk result (λ found. (limit : ℕ) (e : EntityTable) (ls : List (List ℕ)) → Follows limit e self.entry ls
            → IfSome found (λ f. StandsForUnit e f (drop f.begin ls))) }
    {
        let ItemReader { base, reader } = self;
        let alloc = reader.alloc();
        match reader.finish() {
            Ok(None) => Ok(None),
            Ok(Some(part)) => match base {
                None => Ok(Some(part)),
                Some(base) => Ok(Some(behind_base(alloc, base, &part)?)),
            },
            Err(fault) => Err(fault),
        }
    }

    /// How many lines were read before any fault, and how many stay before them. Takes no memory.
    pub fn fed(&self) -> usize
        ensures { result ≡ fed_in self.now }
    {
        match self.base {
            None => self.reader.fed(),
            Some(base) => line_of(base) + self.reader.fed(),
        }
    }

    /// How many lines stand before the first line of the unit that is not handed out yet; none where there is no such unit, and after a fault.
    /// Takes no memory.
    pub fn open_at(&self) -> Option<usize>
        ensures open { (limit : ℕ) (e : EntityTable) (ls : List (List ℕ)) → Follows limit e self.now ls → result ≡ open_begin e ls }
    {
        self.reader.open_at()
    }

    /// Whether the last line that was read begins an item of a top-level list which is not the list's first one; false before any line, after a fault, and
    /// where that line is the one that reading began with. Takes no memory.
    pub fn joined(&self) -> bool
        ensures value { result ≡ held_joined self.now.reading.held }
        ensures joined { (limit : ℕ) (e : EntityTable) (ls : List (List ℕ)) → IsPast self.now → Follows limit e self.now ls → result ≡ is_joined e ls }
    {
        self.reader.joined()
    }

    /// One list, not put together: what is read, in whose last line a later item begins, and an old list's items from its join `k` on, which begins with the
    /// same line. Asks that `joined` is true, that the old list has that join, and that the lines of both are no more than `usize::MAX`. Moves what the reader
    /// holds, copies nothing of the lists that were found, and spends the reader in each case. No line is read or counted again.
    pub fn seam(self, old: &'o Found, k: usize) -> Result<Seam<'o>, NoMemory>
        requires joined { held_joined self.reading.held ≡ true }
        requires join { k < length old.now.marks }
        requires fits { fed_in self + (old.now.lines - (mark_at old.now.marks k).line - 1) ≤ usize.MAX }
        ensures parts { IfOk result (λ seam. (seam.base ≡ self.entry.base) × (seam.old ≡ old.now) × (seam.join ≡ k)) }
        ensures list { IfOk result (λ seam. IsSplicedIn self.entry old.now k (seam_list seam)) }
        ensures fits { IfOk result (λ seam. (limit : ℕ) (e : EntityTable) (xs : List (List ℕ)) (l : List ℕ) (zs ys : List (List ℕ))
            → MeetsIn limit e self.entry old.now k xs l zs ys → MayFit (seam_front seam) seam.old seam.join × IsInOrder seam.base) }
    {
        let ItemReader { base, reader } = self;
        let alloc = reader.alloc();
        let part = reader.into_front()?;
        are_counted(base, part.unit(), old.unit());
        Ok(Seam::of(alloc, base, part, old, k))
    }
}

/// The list up to its join `k`, where it has such a one, in one of its lines.
fn base_at(old: &Found, k: usize) -> Option<Base<'_>>
    ensures base { IfSome result (λ base. base_view base ≡ record { list = old.now; join = k }) }
    ensures within { IfSome result (λ base. base.join < length (base_view base).list.marks) }
    ensures room { IfSome result (λ base. (base_mark (base_view base)).line < usize.MAX) }
    ensures given { k < length old.now.marks → (mark_at old.now.marks k).line < old.now.lines → is_some result ≡ true }
{
    if k >= old.joins().len() {
        return None;
    }
    let base = Base { list: old, join: k };
    if line_of(base) >= old.lines() {
        return None;
    }
    Some(base)
}

/// Counts so many lines.
fn count_lines<C: Count>(lines: usize, count: &mut C)
    ensures lines { C.lines count.new ≡ counted_by lines (C.lines count.old) }
    ensures no_more { C.lines count.new ≤ C.lines count.old + lines }
    ensures inlines { C.inlines count.new ≡ C.inlines count.old }
{
    for _ in 0..lines {
        count.line();
    }
}

/// A base's items, and behind them those of a list that was read behind them.
fn behind_base(alloc: Global, base: Base<'_>, part: &Found) -> Result<Found, NoMemory>
    requires within { base.join < length (base_view base).list.marks }
    ensures whole { IfOk result (λ found. found ≡ fronted_list (base_view base.entry) part.now) }
    ensures definitions { length (base_view base.entry).list.unit.definitions + length part.now.unit.definitions ≤ usize.MAX }
    ensures texts { length (base_view base.entry).list.unit.texts + length part.now.unit.texts ≤ usize.MAX }
{
    base.list.unit().count_with(part.unit());
    fronted(alloc, base.list, base.join, part)
}

/// The same, where the list was handed out by a reader, which goes on as if it had read the lines of those items too.
#[inline(never)]
fn ended(base: Base<'_>, reader: &mut Reader<'_>, part: &Found) -> Result<Found, NoMemory>
    requires within { base.join < length (base_view base).list.marks }
    requires fits { (base_mark (base_view base)).line + reader.old.fed ≤ usize.MAX }
    ensures whole { IfOk result (λ found. found ≡ fronted_list (base_view base.entry) part.now) }
    ensures definitions { length (base_view base.entry).list.unit.definitions + length part.now.unit.definitions ≤ usize.MAX }
    ensures texts { length (base_view base.entry).list.unit.texts + length part.now.unit.texts ≤ usize.MAX }
    ensures moved { OnOk result ((limit : ℕ) (e : EntityTable) (ls : List (List ℕ)) → Reads limit e reader.old ls
        → reader.new ≡ moved_reading (base_mark (base_view base.entry)).line reader.old) }
    ensures fed { OnOk result (reader.new.fed ≡ (base_mark (base_view base.entry)).line + reader.old.fed) }
    ensures held { OnOk result (is_some reader.new.held ≡ is_some reader.old.held) }
{
    let whole = behind_base(reader.alloc(), base, part)?;
    reader.move_on(line_of(base));
    Ok(whole)
}

/// How many lines stand before the item that a base ends with.
fn line_of(base: Base<'_>) -> usize
    ensures { result ≡ (base_mark (base_view base.entry)).line }
{
    join_at(base.list.joins(), base.join).line
}

/// The texts and the definitions of these units can be counted together, since each lies in memory.
fn are_counted(base: Option<Base<'_>>, part: &Unit, old: &Unit)
    ensures texts { length part.now.texts + length old.now.texts ≤ usize.MAX }
    ensures definitions { length part.now.definitions + length old.now.definitions ≤ usize.MAX }
    ensures base { IfSome base.entry (λ b. (length (base_view b).list.unit.texts + length part.now.texts + length old.now.texts ≤ usize.MAX)
        × (length (base_view b).list.unit.definitions + length part.now.definitions + length old.now.definitions ≤ usize.MAX)) }
{
    part.lies_in_memory();
    old.lies_in_memory();
    if let Some(base) = base {
        base.list.unit().lies_in_memory();
    }
}
