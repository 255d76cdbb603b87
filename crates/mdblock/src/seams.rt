//! A list that is not put together yet: the front that was read, and an old list's items from a join on (CommonMark 5.3).

ghost use Rattle.std.specs.Prelude.{◌≡◌, ◌↔◌, ◌+◌, ◌-◌, ◌<◌, ◌≤◌, ◌++◌, ◌∷◌, [], ℕ, List, IfOk, IfSome, IsTrue, None, Some, drop, length, map, option_map, true};
ghost use Rattle.mdtext.specs.EntityTable.{EntityTable};
ghost use Rattle.blockspec.specs.BlockTree.{Items};
ghost use Rattle.blockspec.specs.BlockUnits.{units};
ghost use Rattle.mdblock.specs.Bases.{base_view};
ghost use Rattle.mdblock.specs.BlockView.{kind_view};
ghost use Rattle.mdblock.specs.FoundLists.{AreJoinsOf, StandsForUnit, found_unit, join_mark};
ghost use Rattle.mdblock.specs.Fronted.{HasOrder, behind_base, fronted_marks, items_staying, texts_staying};
ghost use Rattle.mdblock.specs.Insets.{IsEven, MayFit, with_items};
ghost use Rattle.mdblock.specs.Seams.{IsOwnBase, IsSpliced, seam_front, seam_inset, seam_list};
ghost use Rattle.mdblock.specs.Spliced.{MeetsAt, as_first_list, first_kind, mark_at, spliced_marks, tight_list};
ghost use Rattle.mdblock.specs.held.ReaderState.{held_joined};
ghost use Rattle.mdblock.specs.held.Reads.{handed, open_begin};

use crate::blocks::ListKind;
use crate::fronting::fronted;
use crate::readers::Reader;
use crate::splicing::{
    before, behind, is_list_of, is_tight, join_at, list_kind, moved, no_join, spliced,
};
use crate::text_order::has_order;
use crate::units::insets::Inset;
use crate::units::{Found, Join};
use mdtext::NoMemory;
use std::alloc::Global;
use std::marker::Model;

/// An old list whose items before one of its joins stay.
#[derive(Clone, Copy, Drop)]
pub(crate) struct Base<'a> {
    pub(crate) list: &'a Found,
    pub(crate) join: usize,
}

/// One list that is not put together: the items in front, and those of an old list, which is left where it is, from one of its joins on. Where the items in
/// front were read from a join of a list on, those before that join stay in that one.
/// Only this crate makes one.
#[derive(Drop)]
pub struct Seam<'a> {
    alloc: Global,
    base: Option<Base<'a>>,
    part: Found,
    old: &'a Found,
    join: usize,
}

impl<'a> Model for Seam<'a> {
    ghost use Rattle.std.specs.Prelude.{◌<◌, length, IfSome, option_map};
    ghost use Rattle.mdblock.specs.Bases.{base_view};
    ghost use Rattle.mdblock.specs.Seams.{ListSeam, seam_code};

    ghost Value = { ListSeam };

    ghost coded = { seam_code };

    ghost view = { λ s. record { base = option_map base_view s.base; part = s.part; old = s.old.now; join = s.join } };

    ghost invariant = { λ s. (s.join < length s.old.now.marks) × IfSome s.base (λ b. b.join < length b.list.now.marks) };
}

impl<'a> Seam<'a> {
    /// What was read, behind the items of a base, and an old list's items from a join on.
    pub(crate) fn of(
        alloc: Global,
        base: Option<Base<'a>>,
        part: Found,
        old: &'a Found,
        join: usize,
    ) -> Seam<'a>
        requires join { join < length old.now.marks }
        requires within { IfSome base (λ b. b.join < length b.list.now.marks) }
        ensures { result ≡ record { base = option_map base_view base.entry; part = part; old = old.now; join = join } }
    {
        Seam {
            alloc,
            base,
            part,
            old,
            join,
        }
    }

    /// The list that [`splice`] makes, not put together. Asks for the same, moves what the reader holds, copies nothing of the old list, and spends the
    /// reader in each case. No line is read or counted again.
    pub fn new(front: Reader<'_>, old: &'a Found, k: usize) -> Result<Seam<'a>, NoMemory>
        requires joined { held_joined front.held ≡ true }
        requires join { k < length old.now.marks }
        requires fits { front.fed + (old.now.lines - (mark_at old.now.marks k).line - 1) ≤ usize.MAX }
        ensures parts { IfOk result (λ seam. (seam.old ≡ old.now) × (seam.join ≡ k)) }
        ensures list { IfOk result (λ seam. IsSpliced front.entry old.now k (seam_list seam)) }
        ensures fits { IfOk result (λ seam. (limit : ℕ) (e : EntityTable) (xs : List (List ℕ)) (l : List ℕ) (zs ys : List (List ℕ)) → MeetsAt limit e front.entry old.now k xs l zs ys
            → MayFit (seam_front seam) seam.old seam.join) }
    {
        let alloc = front.alloc();
        let front = front.into_front()?;
        front.unit().count_with(old.unit());
        Ok(Seam {
            alloc,
            base: None,
            part: front,
            old,
            join: k,
        })
    }

    /// The list put together. Moves the items that were read, and takes memory for copies of what the old list has from the join on, and of what stays in front:
    /// items, texts, definitions and joins. No line is read or counted again.
    pub fn made(self) -> Result<Found, NoMemory>
        ensures { IfOk result (λ found. found ≡ seam_list self.entry) }
    {
        let Seam {
            alloc,
            base,
            part,
            old,
            join,
        } = self;
        let front = front_of(alloc, base, part)?;
        spliced(alloc, front, old, join)
    }

    /// What was read of the list in front. Takes no memory.
    pub fn part(&self) -> &Found
        ensures { result.now ≡ self.now.part }
    {
        &self.part
    }

    /// How many lines were fed before the first line of the list. Takes no memory.
    pub fn begin(&self) -> usize
        ensures { result ≡ (seam_front self.now).begin }
    {
        match &self.base {
            None => self.part.begin(),
            Some(_) => 0,
        }
    }

    /// How many items stay in front of those that were read. Takes no memory.
    pub fn items_staying(&self) -> usize
        ensures { result ≡ items_staying self.now.base }
    {
        match &self.base {
            None => 0,
            Some(base) => count_to(base.list, base.join),
        }
    }

    /// How many texts these give. Takes no memory.
    pub fn texts_staying(&self) -> usize
        ensures { result ≡ texts_staying self.now.base }
    {
        match &self.base {
            None => 0,
            Some(base) => join_at(base.list.joins(), base.join).texts,
        }
    }

    /// How many texts the items that were read give, where as many stand in front of the join in both lists. Takes no memory.
    pub fn texts_read(&self) -> usize
        ensures { result ≡ (mark_at self.now.old.marks self.now.join).texts - texts_staying self.now.base }
    {
        let from = join_at(self.old.joins(), self.join);
        from.texts.saturating_sub(self.texts_staying())
    }

    /// The number of the old list's item that the join begins, from which on its own items follow. Takes no memory.
    pub fn later(&self) -> usize
        ensures { result ≡ self.now.join + 1 }
    {
        // One more than there are joins in front, which is no more than there are.
        let joins = self.old.joins();
        joins[..self.join].len() + 1
    }

    /// Whether as many items and texts stand in front of the join in both lists, and no definition. Takes no memory.
    pub fn is_even(&self) -> bool
        ensures { IsTrue result ↔ IsEven (seam_front self.now).marks self.now.old.marks self.now.join }
    {
        let from = join_at(self.old.joins(), self.join);
        let to = self.last_join();
        self.has_as_many() && to.texts == from.texts && to.definitions == 0 && from.definitions == 0
    }

    /// Whether as many joins stand in front, with the one of the join.
    fn has_as_many(&self) -> bool
        ensures { IsTrue result ↔ (length (seam_front self.now).marks ≡ self.now.join + 1) }
    {
        let count = self.part.joins().len();
        match &self.base {
            None => count == count_to(self.old, self.join),
            Some(base) => base.join <= self.join && count == self.join - base.join,
        }
    }

    /// The join in front that has the number of the old list's.
    fn last_join(&self) -> Join
        ensures { join_mark result ≡ mark_at (seam_front self.now).marks self.now.join }
    {
        match &self.base {
            None => join_at(self.part.joins(), self.join),
            Some(base) => join_behind(base, self.part.joins(), self.join),
        }
    }

    /// Whether the list put together is of the old one's kind, and tight or loose as that is, and the texts that were read lie in order; false where the old one
    /// is no list. Takes no memory.
    pub fn is_alike(&self) -> bool
        ensures kind { result ≡ true → (items : Items) → as_first_list (tight_list self.now.old.parted (spliced_marks (seam_front self.now).marks self.now.old.marks self.now.join)) items (seam_front self.now).unit.blocks
            ≡ with_items items self.now.old.unit.blocks }
        ensures order { result ≡ true → HasOrder self.now.part }
    {
        is_list_of(self.old.unit().blocks(), self.kind(), self.would_be_tight())
            && has_order(&self.part)
    }

    /// The kind of the list.
    fn kind(&self) -> Option<ListKind>
        ensures { option_map kind_view result ≡ first_kind (seam_front self.now).unit.blocks }
    {
        match &self.base {
            None => list_kind(self.part.unit().blocks()),
            Some(base) => list_kind(base.list.unit().blocks()),
        }
    }

    /// Whether the list put together is tight.
    fn would_be_tight(&self) -> bool
        ensures { result ≡ tight_list self.now.old.parted (spliced_marks (seam_front self.now).marks self.now.old.marks self.now.join) }
    {
        let later = behind(self.old.joins(), self.join + 1);
        self.would_be_tight_before() && is_tight(later, false)
    }

    /// Whether it is by its joins before the old list's.
    fn would_be_tight_before(&self) -> bool
        ensures { result ≡ tight_list self.now.old.parted (seam_front self.now).marks }
    {
        let parted = self.old.is_parted();
        match &self.base {
            None => is_tight(self.part.joins(), parted),
            Some(base) => is_tight_behind(base, self.part.joins(), parted),
        }
    }

    /// What can take the place of the old list's items where both are even. Takes memory for copies of what was read, items and texts.
    pub fn inset(self) -> Result<Inset, NoMemory>
        requires even { IsEven (seam_front self).marks self.old.marks self.join }
        requires own { IsOwnBase self.base self.old self.join }
        ensures { IfOk result (λ inset. inset ≡ seam_inset self.entry) }
    {
        let stay = self.join_staying();
        let before = self.texts_staying();
        Inset::new(self.alloc, stay, before, self.part, self.join)
    }

    /// The join of the base.
    fn join_staying(&self) -> Option<usize>
        ensures { result ≡ (seam_inset self.now).stay }
    {
        match &self.base {
            None => None,
            Some(base) => Some(base.join),
        }
    }
}

/// How many joins a list has up to one of them, with that one.
fn count_to(list: &Found, k: usize) -> usize
    requires { k < length list.now.marks }
    ensures { result ≡ k + 1 }
{
    list.joins()[..k].len() + 1
}

/// What was read, and the items of a base before it.
fn front_of(alloc: Global, base: Option<Base<'_>>, part: Found) -> Result<Found, NoMemory>
    requires { IfSome base (λ b. b.join < length b.list.now.marks) }
    ensures { IfOk result (λ front. front ≡ behind_base (option_map base_view base.entry) part) }
{
    match base {
        None => Ok(part),
        Some(base) => fronted(alloc, base.list, base.join, &part),
    }
}

/// The join of that number, where some were read behind a base.
fn join_behind(base: &Base<'_>, later: &[Join], k: usize) -> Join
    requires { base.now.join < length base.now.list.now.marks }
    ensures { join_mark result ≡ mark_at (fronted_marks (base_view base.now) (map join_mark later.now)) k }
{
    let joins = base.list.joins();
    if k <= base.join {
        return join_at(joins, k);
    }
    match later.get(k - base.join - 1) {
        Some(join) => moved(*join, no_join(), join_at(joins, base.join)),
        None => no_join(),
    }
}

/// Whether the list is tight, where joins were read behind a base.
fn is_tight_behind(base: &Base<'_>, later: &[Join], parted: bool) -> bool
    requires { base.now.join < length base.now.list.now.marks }
    ensures { result ≡ tight_list parted (fronted_marks (base_view base.now) (map join_mark later.now)) }
{
    let first = before(base.list.joins(), base.join + 1);
    is_tight(first, parted) && is_tight(later, false)
}

/// One list of what a reader holds, in whose last line a later item begins, and of an old list's items from its join `k` on, which begins with the same
/// line: what the reader would hold if it had read the old list's lines behind that one too.
///
/// Asks that the reader's `joined` is true, that `k`, from 0 on, is the number of one of the old list's `joins`, and that the reader's lines with the old
/// ones behind that join are no more than `usize::MAX`. Where the two lines differ nothing is said of the answer. Moves what the reader holds, takes memory for
/// copies of what the old list has from there on, items, texts, definitions and joins, and spends the reader in each case. No line is read or counted again, and
/// where the old list began does not matter.
pub fn splice(front: Reader, old: &Found, k: usize) -> Result<Found, NoMemory>
    requires joined { held_joined front.held ≡ true }
    requires join { k < length old.now.marks }
    requires fits { front.fed + (old.now.lines - (mark_at old.now.marks k).line - 1) ≤ usize.MAX }
    ensures begin { IfOk result (λ found. (limit : ℕ) (e : EntityTable) (xs : List (List ℕ)) (l : List ℕ) (zs ys : List (List ℕ)) → MeetsAt limit e front.entry old.now k xs l zs ys
        → open_begin e (xs ++ l ∷ []) ≡ Some found.begin) }
    ensures units { IfOk result (λ found. (limit : ℕ) (e : EntityTable) (xs : List (List ℕ)) (l : List ℕ) (zs ys : List (List ℕ)) → MeetsAt limit e front.entry old.now k xs l zs ys
        → units e (xs ++ l ∷ ys) ≡ handed e (xs ++ l ∷ []) ++ found_unit found ∷ []) }
    ensures joins { IfOk result (λ found. (limit : ℕ) (e : EntityTable) (xs : List (List ℕ)) (l : List ℕ) (zs ys : List (List ℕ)) → MeetsAt limit e front.entry old.now k xs l zs ys
        → AreJoinsOf e (xs ++ l ∷ ys) found) }
    ensures stands { IfOk result (λ found. (limit : ℕ) (e : EntityTable) (xs : List (List ℕ)) (l : List ℕ) (zs ys : List (List ℕ)) → MeetsAt limit e front.entry old.now k xs l zs ys
        → StandsForUnit e found (drop found.begin (xs ++ l ∷ ys))) }
    ensures texts { IfOk result (λ found. (limit : ℕ) (e : EntityTable) (xs : List (List ℕ)) (l : List ℕ) (zs ys : List (List ℕ)) → MeetsAt limit e front.entry old.now k xs l zs ys
        → (kept : List (List ℕ)) × (found.unit.texts ≡ kept ++ drop (mark_at old.now.marks k).texts old.now.unit.texts)) }
{
    Seam::new(front, old, k)?.made()
}
