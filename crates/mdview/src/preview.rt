//! `Preview`: a text that is edited by lines, and its HTML in pieces.

ghost use Rattle.std.specs.Prelude.{◌≡◌, ◌≤◌, ◌+◌, List, None, Some, IfErr, IfOk, IsSome, OnOk, false, length, map, option_map, slice_get, true};
ghost use Rattle.htmlspec.specs.Limits.{HasLimits};
ghost use Rattle.blockspec.specs.BlockUnits.{begins, units};
ghost use Rattle.blockspec.specs.UnitTree.{UnitTree};
ghost use Rattle.inlinespec.specs.ParsedText.{ParsedText};
ghost use Rattle.mdwalk.specs.EdgeView.{edges_left};
ghost use Rattle.mdsource.specs.Calls.{due_at_once, put, set_prelude};
ghost use Rattle.mdsource.specs.SoonTexts.{texts_soon};
ghost use Rattle.mdsource.specs.Stops.{lines_soon};
ghost use Rattle.mdsource.specs.Patch.{Brings};
ghost use Rattle.mdview.specs.Document.{empty, pieces_of, readings_of, setting_of, source_of};
ghost use Rattle.mdsource.specs.SourceLimits.{has_special, size_of};
ghost use Rattle.mdview.specs.Edit.{call_of, due};
ghost use Rattle.mdview.specs.HeldUnit.{HeldUnit, piece_of, shown_in, unit_edges};
ghost use Rattle.mdview.specs.Outcome.{answer_of, is_starved, outcome_of};
ghost use Rattle.mdsource.specs.Preludes.{IsDefinedBy, IsUndefining};

use crate::blocks::held_places::begin_of;
use crate::commit::{commit, commit_readings};
use crate::held::labels::HeldLabels;
use crate::held::units::HeldUnit;
use crate::held::{HeldText, SPLICE_ROOM};
use crate::patch::Patch;
use crate::pieces::Pieces;
use crate::source::new_text::NewText;
use crate::update::Update;
use mdblock::Unit;
use mdchunks::Chunks;
use mdhtml::Options;
use mdinline::Parsed;
use mdsource::{AddedLines, EditFault, Lines, MAX_LINES, MAX_SIZE, Prelude};
use mdtext::{Count, Entities};
use mdwalk::Walk;
use std::alloc::{AllocError, Global};
use std::marker::Model;

/// A text that is edited by lines, and its HTML. Lines, units and pieces are numbered from 0.
#[derive(Drop)]
pub struct Preview {
    alloc: Global,
    entities: Entities,
    options: Options,
    lines: Chunks<String>,
    /// The bytes of the lines, with one counted for each line's end.
    size: usize,
    /// How many lines stand before the first unit.
    head: usize,
    units: Chunks<HeldUnit>,
    prelude: Prelude,
    labels: HeldLabels,
}

impl Model for Preview {
    ghost use Rattle.std.specs.Prelude.{◌≡◌, ◌≤◌, None, length, map, string_bytes};
    ghost use Rattle.std.specs.List.{All};
    ghost use Rattle.blockspec.specs.Nesting.{first_too_deep};
    ghost use Rattle.htmlspec.specs.Limits.{HasLimits};
    ghost use Rattle.mdview.specs.Document.{Document};
    ghost use Rattle.mdsource.specs.SourceLimits.{size_of};
    ghost use Rattle.mdview.specs.HeldBlocks.{HoldsUnits};
    ghost use Rattle.mdview.specs.HeldTexts.{HoldsTexts};
    ghost use Rattle.mdview.specs.HeldUnit.{IsRendered, read_of};

    ghost Value = { Document };

    // What it is tells all that it shows: the rest is held so that an edit need not read it again.
    ghost view = { λ p. record {
      entities = p.entities;
      options = p.options;
      lines = map string_bytes p.lines.items;
      prelude = p.prelude.lines;
    } };

    ghost invariant = { λ p. (p.size ≡ size_of (map string_bytes p.lines.items)) × (p.size ≤ 16777216) × (length p.lines.items ≤ 1000000)
        × All (IsRendered p.options) p.units.items × HasLimits p.options
        × HoldsUnits p.entities (map string_bytes p.lines.items) p.head (map read_of p.units.items)
        × (first_too_deep p.options.max_containers (map string_bytes p.lines.items) ≡ None)
        × HoldsTexts (record { entities = p.entities; options = p.options }) (map string_bytes p.lines.items) p.prelude p.labels p.units.items };
}

impl Preview {
    /// The empty text, with an empty prelude. The limits of the options are 1 to 256. Takes no memory.
    pub fn new(alloc: Global, entities: Entities, options: Options) -> Preview
        requires { HasLimits options }
        ensures { result ≡ empty entities options }
    {
        Preview {
            alloc,
            entities,
            options,
            lines: Chunks::new(alloc),
            size: 0,
            head: 0,
            units: Chunks::new(alloc),
            prelude: Prelude::empty(alloc),
            labels: HeldLabels::new(alloc),
        }
    }

    pub(crate) fn alloc(&self) -> Global {
        self.alloc
    }

    /// How many lines the text has.
    pub fn len(&self) -> usize
        ensures { result ≡ length self.now.lines }
    {
        self.lines.len()
    }

    /// The line of this number, without a line ending; nothing where the text has fewer.
    pub fn line(&self, i: usize) -> Option<&str>
        ensures { option_map (λ line. line.now) result ≡ slice_get self.now.lines i }
    {
        match self.lines.get(i) {
            Some(line) => Some(line.as_str()),
            None => None,
        }
    }

    /// Each line of the text in order, without its ending, lent without copying.
    pub fn lines(&self) -> Lines<'_>
        ensures { result ≡ self.now.lines }
    {
        Lines::new(self.lines.iter_from(0))
    }

    /// How many units the text has.
    pub fn units(&self) -> usize
        ensures value { result ≡ length (units self.now.entities self.now.lines) }
        ensures pieces { result ≡ length (pieces_of self.now) }
    {
        self.units.len()
    }

    /// What is held of the unit of this number; nothing where the text has fewer.
    fn held(&self, i: usize) -> Option<&HeldUnit>
        ensures shown { option_map (λ u. shown_in u.now) result ≡ slice_get (readings_of self.now) i }
        ensures piece { option_map (λ u. piece_of u.now) result ≡ slice_get (pieces_of self.now) i }
    {
        self.units.get(i)
    }

    /// The unit of this number; nothing where the text has fewer.
    pub fn unit(&self, i: usize) -> Option<&Unit>
        ensures { option_map (λ unit. unit.now) result ≡ option_map (λ (u : UnitTree × List ParsedText). u.0) (slice_get (readings_of self.now) i) }
    {
        match self.held(i) {
            Some(unit) => Some(unit.unit()),
            None => None,
        }
    }

    /// What the texts of the unit of this number read as; nothing where the text has fewer units.
    pub fn inlines(&self, i: usize) -> Option<&[Parsed]>
        ensures { option_map (λ inlines. inlines.now) result ≡ option_map (λ (u : UnitTree × List ParsedText). u.1) (slice_get (readings_of self.now) i) }
    {
        match self.held(i) {
            Some(unit) => Some(unit.inlines()),
            None => None,
        }
    }

    /// A walk over the unit of this number, its blocks and inlines alike; nothing where the text has fewer units. It is refused for want of memory alone.
    pub fn walk(&self, i: usize) -> Result<Option<Walk<'_>>, AllocError>
        ensures { IfOk result (λ walk. option_map edges_left walk ≡ option_map unit_edges (slice_get (readings_of self.now) i)) }
    {
        match self.held(i) {
            Some(unit) => Ok(Some(Walk::new(self.alloc, unit.unit().blocks(), unit.inlines())?)),
            None => Ok(None),
        }
    }

    /// The number of the first line of the unit of this number; nothing where the text has fewer units.
    pub fn first_line(&self, i: usize) -> Option<usize>
        ensures { result ≡ slice_get (begins self.now.entities self.now.lines) i }
    {
        if i < self.units.len() {
            Some(begin_of(&self.units, self.head, i))
        } else {
            None
        }
    }

    /// The entities that it was made with.
    pub fn entities(&self) -> &Entities
        ensures { result.now ≡ self.now.entities }
    {
        &self.entities
    }

    /// The options that it was made with.
    pub fn options(&self) -> &Options
        ensures value { result.now ≡ self.now.options }
        ensures limits { HasLimits result.now }
    {
        &self.options
    }

    /// The prelude, as other texts take it.
    pub fn definitions(&self) -> &Prelude
        ensures lines { result.now.lines ≡ self.now.prelude }
        // Its labels lead where these lines define, so that what is made with it is made with the prelude of this text.
        ensures defined { IsDefinedBy self.now.entities result.now }
    {
        &self.prelude
    }

    /// Each line of the prelude in order, without its ending, lent without copying.
    pub fn prelude(&self) -> Lines<'_>
        ensures { result ≡ self.now.prelude }
    {
        self.prelude.lines()
    }

    /// The HTML of each unit, in order, lent without copying.
    pub fn pieces(&self) -> Pieces<'_>
        // After any calls: those of the whole text, read from nothing.
        ensures { result ≡ pieces_of self.now }
    {
        Pieces::new(self.units.iter_from(0))
    }

    /// The HTML of the unit of this number; nothing where the text has fewer.
    pub fn piece(&self, i: usize) -> Option<&str>
        ensures { option_map (λ piece. piece.now) result ≡ slice_get (pieces_of self.now) i }
    {
        match self.held(i) {
            Some(unit) => Some(unit.piece()),
            None => None,
        }
    }
}

impl Preview {
    /// The size of the text after the edit, or why it is refused, whatever the memory. Takes none.
    fn accept(&self, at: usize, del: usize, add: &AddedLines) -> Result<usize, EditFault>
        ensures ok { IfOk result (λ size. (due self.now.lines (call_of at del add.now) ≡ None)
            × (size ≡ size_of (put (source_of self.now) (call_of at del add.now)).lines)) }
        ensures err { IfErr result (λ fault. due self.now.lines (call_of at del add.now) ≡ Some fault) }
        ensures within { OnOk result (at + del ≤ length self.now.lines) }
        ensures small { OnOk result ((length (put (source_of self.now) (call_of at del add.now)).lines ≤ 1000000)
            × (size_of (put (source_of self.now) (call_of at del add.now)).lines ≤ 16777216)) }
    {
        let lines = self.lines.len();
        if at > lines || del > lines - at {
            return Err(EditFault::OutOfRange { lines });
        }
        if let Some(index) = add.first_line_break() {
            return Err(EditFault::BreakInLine { index });
        }
        if add.len() > MAX_LINES - (lines - del) {
            return Err(EditFault::TooManyLines);
        }
        let gone = self.lines.weight_between(at, del);
        let kept = self.size - gone;
        let added = add.size();
        if added > MAX_SIZE - kept {
            return Err(EditFault::TooLarge);
        }
        Ok(kept + added)
    }

    /// Replaces `del` lines from line `at` on by others, which have no line ending, and says which pieces changed.
    ///
    /// Refused, in this order: `OutOfRange`, `BreakInLine`, `TooManyLines`, `TooLarge`, whatever the memory; then
    /// `NestedTooDeep`, `InlineTooDeep`; `NoMemory` at any point behind the first four. After each the preview is as before, and after the first
    /// four the counter too. U+0000 in an added line is
    /// replaced by U+FFFD before its size is counted (CommonMark 2.3).
    ///
    /// A line or a text that is taken over in place of being read counts as read, when it is taken over: the lines of a list in
    /// front of the item at which reading begins, and the texts that a unit had already in whose place another comes.
    pub fn edit<C: Count>(
        &mut self,
        at: usize,
        del: usize,
        add: &[&str],
        count: &mut C,
    ) -> Result<Patch, EditFault>
        // The answer and what is there then are those of the definition, where memory was refused for it or not.
        ensures outcome { (answer_of result, self.new) ≡ outcome_of (is_starved result) self.old (call_of at del (map (λ line. line.now) add.now)) }
        // The patch takes the old pieces to the new ones, and the units that it does not bring read as they did.
        ensures patch { IfOk result (λ patch. Brings patch (pieces_of self.old) (pieces_of self.new)) }
        ensures units { IfOk result (λ patch. Brings patch (readings_of self.old) (readings_of self.new)) }
        // What was read is counted: the lines from the last unit that begins above the edit to where a unit, or a later item of a list, begins in both texts, at
        // most, and the inline texts of these lines and those that asked for a label which leads elsewhere now. Nothing is read where a refusal is due.
        ensures stretch { C.lines count.new ≤ C.lines count.old + lines_soon (setting_of self.old) (source_of self.old) (call_of at del (map (λ line. line.now) add.now)) }
        ensures lines { C.lines count.new ≤ C.lines count.old + length (put (source_of self.old) (call_of at del (map (λ line. line.now) add.now))).lines }
        ensures inlines { C.inlines count.new ≤ C.inlines count.old + texts_soon (setting_of self.old) (source_of self.old) (call_of at del (map (λ line. line.now) add.now)) }
        ensures uncounted { IsSome (due_at_once (source_of self.old) (call_of at del (map (λ line. line.now) add.now))) → count.new ≡ count.old }
    {
        self.edit_lines(at, del, &AddedLines::new(add), count)
    }

    /// What `edit` does, with the lines as `AddedLines` holds them.
    fn edit_lines<C: Count>(
        &mut self,
        at: usize,
        del: usize,
        add: &AddedLines,
        count: &mut C,
    ) -> Result<Patch, EditFault>
        ensures outcome { (answer_of result, self.new) ≡ outcome_of (is_starved result) self.old (call_of at del add.now) }
        ensures patch { IfOk result (λ patch. Brings patch (pieces_of self.old) (pieces_of self.new)) }
        ensures units { IfOk result (λ patch. Brings patch (readings_of self.old) (readings_of self.new)) }
        ensures stretch { C.lines count.new ≤ C.lines count.old + lines_soon (setting_of self.old) (source_of self.old) (call_of at del add.now) }
        ensures lines { C.lines count.new ≤ C.lines count.old + length (put (source_of self.old) (call_of at del add.now)).lines }
        ensures inlines { C.inlines count.new ≤ C.inlines count.old + texts_soon (setting_of self.old) (source_of self.old) (call_of at del add.now) }
        ensures uncounted { IsSome (due_at_once (source_of self.old) (call_of at del add.now)) → count.new ≡ count.old }
    {
        let size = self.accept(at, del, add)?;
        let mut new_lines = add.cleaned(self.alloc, SPLICE_ROOM)?;
        let held = HeldText {
            alloc: self.alloc,
            entities: &self.entities,
            options: &self.options,
            head: self.head,
            units: &self.units,
            prelude: &self.prelude,
            labels: &self.labels,
        };
        let text = NewText::new(&self.lines, at, del, &new_lines);
        let mut update = Update::of(&held, text, count)?;
        let patch = update.patch(self.alloc)?;
        self.lines.reserve_splice(&mut new_lines)?;
        self.units.reserve_splice(&mut update.units)?;
        self.labels.make_room(self.alloc, &update.changes)?;
        // From here on nothing fails.
        self.lines.splice(at, del, new_lines);
        self.size = size;
        self.head = update.head;
        commit(&mut self.units, &mut self.labels, update);
        Ok(patch)
    }

    /// Replaces the prelude, which is empty at first, and says which pieces were made again: those of the units with a text
    /// that asked for a label which leads elsewhere now. A label that the text defines leads where the text says
    /// (CommonMark 4.7).
    ///
    /// The lines are read as a text of their own, and counted against limits of their own. Refused, in this order:
    /// `BreakInLine`, `TooManyLines`, `TooLarge`, whatever the memory; then `NotDefinitions`, `InlineTooDeep`; `NoMemory` at
    /// any point behind the first three. After each the preview is as before, and after those the counter too. `NotDefinitions` comes
    /// before any inline text is read.
    pub fn set_prelude<C: Count>(
        &mut self,
        lines: &[&str],
        count: &mut C,
    ) -> Result<Patch, EditFault>
        // The answer and what is there then are those of the definition, where memory was refused for it or not.
        ensures outcome { (answer_of result, self.new) ≡ outcome_of (is_starved result) self.old (set_prelude (map (λ line. line.now) lines.now)) }
        // The patch takes the old pieces to the new ones, and the units that it does not bring read as they did.
        ensures patch { IfOk result (λ patch. Brings patch (pieces_of self.old) (pieces_of self.new)) }
        ensures units { IfOk result (λ patch. Brings patch (readings_of self.old) (readings_of self.new)) }
        // What was read is counted, and nothing is read where a refusal is due.
        ensures lines { C.lines count.new ≤ C.lines count.old + length lines.now }
        ensures inlines { C.inlines count.new ≤ C.inlines count.old + texts_soon (setting_of self.old) (source_of self.old) (set_prelude (map (λ line. line.now) lines.now)) }
        ensures unread { IfErr result (λ fault. IsUndefining fault → C.inlines count.new ≡ C.inlines count.old) }
        ensures uncounted { IsSome (due_at_once (source_of self.old) (set_prelude (map (λ line. line.now) lines.now))) → count.new ≡ count.old }
    {
        let prelude = Prelude::read(self.alloc, lines, &self.entities, &self.options, count)?;
        let held = HeldText {
            alloc: self.alloc,
            entities: &self.entities,
            options: &self.options,
            head: self.head,
            units: &self.units,
            prelude: &self.prelude,
            labels: &self.labels,
        };
        let renewal = Update::of_prelude(&held, &prelude, count)?;
        let patch = renewal.patch(self.alloc)?;
        self.labels.make_room(self.alloc, &renewal.changes)?;
        // From here on nothing fails.
        self.prelude = prelude;
        commit_readings(&mut self.units, &mut self.labels, renewal);
        Ok(patch)
    }
}
