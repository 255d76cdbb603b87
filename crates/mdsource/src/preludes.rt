//! A prelude: definitions that are handed in beside a text.

ghost use Rattle.std.specs.Prelude.{◌≡◌, ◌≤◌, ◌+◌, [], ℕ, List, None, Some};
ghost use Rattle.std.specs.Prelude.{IfErr, IfOk, IsSome, OnOk, false, length, map, option_map, string_bytes, true};
ghost use Rattle.std.specs.List.{list_any};
ghost use Rattle.std.specs.Map.Iter.{ShowsInOrder, deref};
ghost use Rattle.std.specs.Option.{option_or};
ghost use Rattle.inlinespec.specs.LabelMap.{target_in, target_of};
ghost use Rattle.htmlspec.specs.Limits.{HasLimits};
ghost use Rattle.mdtext.specs.Lines.{without_nul};
ghost use Rattle.mdsource.specs.SourceLimits.{due_of_prelude, has_special, size_of};
ghost use Rattle.mdsource.specs.Preludes.{IsDefinedBy, IsUndefiningAt, RefusesPrelude, target_beside};
ghost use Rattle.mdsource.specs.Refusals.{undefining_line};

use crate::added_lines::AddedLines;
use crate::defining::read_definitions;
use crate::fault::EditFault;
use crate::lent_lines::Lines;
use crate::limits::{MAX_LINES, MAX_SIZE};
use htmlspec::Options;
use mdchunks::Iter;
use mdinline::Labels;
use mdtext::{Count, Entities, Label, NoMemory, Target};
use std::alloc::Global;
use std::collections::BTreeMap;
use std::collections::btree_map::Keys;
use std::marker::Model;

/// Definitions that are handed in beside a text, as the common links of a site are. They stand below the text's own: a label
/// that the text defines leads where the text says (CommonMark 4.7).
#[derive(Drop)]
pub struct Prelude {
    lines: Vec<String>,
    /// Where each label leads that the lines define, by their first definition of it.
    targets: BTreeMap<Label, Target, Global>,
}

impl Model for Prelude {
    ghost use Rattle.std.specs.Prelude.{map, string_bytes};
    ghost use Rattle.inlinespec.specs.LabelMap.{map_code, target_of};
    ghost use Rattle.mdsource.specs.Preludes.{HeldPrelude};
    ghost use Rattle.std.specs.Coded.{codes};

    ghost Value = { HeldPrelude };

    ghost coded = { Prim.hlevel (codes, map_code) };

    ghost view = { λ p. record { lines = map string_bytes p.lines.items; labels = map (λ e. (e.0, target_of e.1)) p.targets.entries } };
}

impl Prelude {
    /// No definition. Takes no memory.
    pub fn empty(alloc: Global) -> Prelude
        ensures { result ≡ record { lines = []; labels = [] } }
    {
        Prelude {
            lines: Vec::new(alloc),
            targets: BTreeMap::new(alloc),
        }
    }

    /// The definitions in these lines, which are read as a text of their own. U+FFFD stands for each U+0000 then
    /// (CommonMark 2.3). Each line that is read is counted. The limits of the options are 1 to 256.
    ///
    /// Refused, in this order: `BreakInLine`, `TooManyLines`, `TooLarge`, whatever the memory, and then nothing is counted;
    /// `NotDefinitions`; `NoMemory` at any point behind the first three.
    pub fn read<C: Count>(
        alloc: Global,
        lines: &[&str],
        entities: &Entities,
        options: &Options,
        count: &mut C,
    ) -> Result<Prelude, EditFault>
        requires { HasLimits options.now }
        ensures due { IfOk result (λ _. due_of_prelude (map (λ line. line.now) lines.now) ≡ None) }
        ensures read { IfOk result (λ prelude. prelude.lines ≡ map without_nul (map (λ line. line.now) lines.now)) }
        ensures defined { IfOk result (IsDefinedBy entities.now) }
        ensures definitions { OnOk result (undefining_line (record { entities = entities.now; options = options.now })
            (map without_nul (map (λ line. line.now) lines.now)) ≡ None) }
        ensures undefining { IfErr result (IsUndefiningAt (undefining_line (record { entities = entities.now; options = options.now })
            (map without_nul (map (λ line. line.now) lines.now)))) }
        ensures fault { IfErr result (λ fault. RefusesPrelude fault (map (λ line. line.now) lines.now)) }
        ensures uncounted { IsSome (due_of_prelude (map (λ line. line.now) lines.now)) → count.new ≡ count.old }
        ensures lines { C.lines count.new ≤ C.lines count.old + length lines.now }
        ensures inlines { C.inlines count.new ≡ C.inlines count.old }
    {
        let added = AddedLines::new(lines);
        accept(&added)?;
        let lines = added.cleaned(alloc, 0)?;
        let targets = read_definitions(alloc, &lines, entities, options, count)?;
        Ok(Prelude { lines, targets })
    }

    /// The lines, without their endings, lent without copying.
    pub fn lines(&self) -> Lines<'_>
        ensures { result ≡ self.now.lines }
    {
        Lines::new(Iter::of(&self.lines))
    }

    /// The labels that the prelude defines.
    pub fn labels(&self) -> Keys<'_, Label, Target>
        ensures rest { result ≡ map (λ e. e.0) self.now.labels }
        ensures runs { ShowsInOrder (deref {X = List ℕ}) }
    {
        self.targets.keys()
    }
}

impl Labels for Prelude {
    ghost target = { target_beside };

    fn find(&self, label: &Label) -> Option<&Target> {
        self.targets.get(label)
    }
}

/// Refuses lines that no prelude has, whatever the memory: one with a line ending in it, too many lines, too many bytes, in this order. Takes no memory.
fn accept(lines: &AddedLines) -> Result<(), EditFault>
    ensures ok { OnOk result (due_of_prelude lines.now ≡ None) }
    ensures err { IfErr result (λ fault. RefusesPrelude fault lines.now) }
    ensures due { IfErr result (λ fault. due_of_prelude lines.now ≡ Some fault) }
    ensures few { OnOk result (length lines.now ≤ 1000000) }
    ensures small { OnOk result (size_of (map without_nul lines.now) ≤ 16777216) }
{
    if let Some(index) = lines.first_line_break() {
        return Err(EditFault::BreakInLine { index });
    }
    if lines.len() > MAX_LINES {
        return Err(EditFault::TooManyLines);
    }
    if lines.size() > MAX_SIZE {
        return Err(EditFault::TooLarge);
    }
    Ok(())
}

/// Where a label leads: to `target`, where the text defines it; else where the prelude says; nowhere, where neither defines it
/// (CommonMark 4.7). Refused for want of memory alone.
pub fn or_beside(
    alloc: Global,
    target: Option<Target>,
    label: &Label,
    prelude: &Prelude,
) -> Result<Option<Target>, NoMemory>
    ensures { IfOk result (λ led. option_map target_of led
        ≡ option_or (option_map target_of target) (target_in prelude.now.labels label.now)) }
{
    if target.is_some() {
        return Ok(target);
    }
    match prelude.find(label) {
        Some(target) => Ok(Some(target.copy(alloc)?)),
        None => Ok(None),
    }
}
