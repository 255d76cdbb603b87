//! Reads the lines of a prelude, which are definitions and nothing else.

ghost use Rattle.std.specs.Prelude.{List, [], ◌≡◌, ◌≤◌, ◌<◌, ◌+◌, ◌*◌, ◌^◌, ◌∷◌, ◌++◌};
ghost use Rattle.std.specs.Prelude.{IfErr, IfOk, None, OnOk, length, map, string_bytes, take};
ghost use Rattle.std.specs.Option.{option_map, option_to_list};
ghost use Rattle.blockspec.specs.BlockUnits.{units};
ghost use Rattle.blockspec.specs.UnitTree.{FoundUnit};
ghost use Rattle.mdblock.specs.FoundLists.{found_unit};
ghost use Rattle.htmlspec.specs.Limits.{HasLimits};
ghost use Rattle.mdleaf.specs.DefinedLinks.{definition_of};
ghost use Rattle.mdsource.specs.LabelTable.{with_definitions, with_units};
ghost use Rattle.mdsource.specs.Refusals.{undefining_line};
ghost use Rattle.mdsource.specs.Defining.{Defines, EndsAt, fault_of, shown};
ghost use Rattle.mdsource.specs.SourceLimits.{size_of};
ghost use Rattle.mdsource.specs.Preludes.{OfDefinitions, IsUndefiningAt};

use crate::fault::EditFault;
use htmlspec::Options;
use mdblock::{BlockFault, Definition, Found, Reader};
use mdtext::{Count, Entities, Label, NoMemory, Target};
use std::alloc::Global;
use std::collections::BTreeMap;

/// Where the labels lead that these lines define, by the first definition of each. Each line that is read is counted.
///
/// `NotDefinitions` has the line that begins a container too many; where none does, the first line of the first unit with
/// another block. So all lines are read before the second is answered.
pub(crate) fn read_definitions<C: Count>(
    alloc: Global,
    lines: &[String],
    entities: &Entities,
    options: &Options,
    count: &mut C,
) -> Result<BTreeMap<Label, Target, Global>, EditFault>
    requires limits { HasLimits options.now }
    requires few { length lines.now ≤ 1000000 }
    requires small { size_of (map string_bytes lines.now) ≤ 16777216 }
    ensures defines { IfOk result (λ targets. shown targets.entries ≡ with_units [] (units entities.now (map string_bytes lines.now))) }
    ensures definitions { OnOk result (undefining_line (record { entities = entities.now; options = options.now }) (map string_bytes lines.now) ≡ None) }
    ensures undefining { IfErr result (IsUndefiningAt (undefining_line (record { entities = entities.now; options = options.now })
        (map string_bytes lines.now))) }
    ensures fault { IfErr result OfDefinitions }
    ensures lines { C.lines count.new ≤ C.lines count.old + length lines.now }
    ensures inlines { C.inlines count.new ≡ C.inlines count.old }
{
    let mut defined = Defined::new(alloc);
    let mut reader = Reader::new(alloc, entities, options.max_containers);
    for line in 0..lines.len() {
        match reader.line(line_at(lines, line), count) {
            Ok(found) => defined.take(found)?,
            Err(fault) => return Err(fault_in_prelude(fault, line)),
        }
    }
    // Behind the last line no container begins any more.
    match reader.finish() {
        Ok(found) => defined.take(found)?,
        Err(_) => return Err(EditFault::NoMemory),
    }
    defined.targets()
}

/// The line of this number, which is no longer than the text.
#[tactic(auto, using(crate::proofs::LineSizes::line_fits, crate::proofs::Definings::next_line))]
fn line_at(lines: &[String], i: usize) -> &str
    requires within { i < length lines.now }
    requires small { size_of (map string_bytes lines.now) ≤ 16777216 }
    ensures short { 4 * length result.now < 2 ^ 64 }
    ensures line { take (i + 1) (map string_bytes lines.now) ≡ take i (map string_bytes lines.now) ++ result.now ∷ [] }
{
    lines[i].as_str()
}

/// What the units of a prelude define so far.
#[derive(Drop)]
struct Defined {
    alloc: Global,
    targets: BTreeMap<Label, Target, Global>,
    /// The first line of the first unit that has a block which is no definition.
    other: Option<usize>,
}

impl Defined {
    /// Nothing. Takes no memory.
    fn new(alloc: Global) -> Defined
        ensures { Defines [] result }
    {
        Defined {
            alloc,
            targets: BTreeMap::new(alloc),
            other: None,
        }
    }

    /// Takes the definitions of the next unit, if there is one.
    fn take(&mut self, found: Option<Found>) -> Result<(), NoMemory>
        ensures { (all : List FoundUnit) → Defines all self.old → OnOk result (Defines (all ++ option_to_list (option_map found_unit found)) self.new) }
    {
        let Some(found) = found else {
            return Ok(());
        };
        if self.other.is_some() {
            return Ok(());
        }
        if !found.unit().blocks().is_empty() {
            self.other = Some(found.begin());
            return Ok(());
        }
        let definitions = found.unit().definitions();
        for definition in definitions {
            self.define(definition)?;
        }
        Ok(())
    }

    /// The first definition of a label counts.
    fn define(&mut self, definition: &Definition) -> Result<(), NoMemory>
        ensures labels { OnOk result (shown self.new.targets.entries
            ≡ with_definitions (shown self.old.targets.entries) (definition_of definition.now ∷ [])) }
        ensures other { self.new.other ≡ self.old.other }
    {
        if self.targets.contains_key(&definition.label) {
            return Ok(());
        }
        let label = definition.label.copy(self.alloc)?;
        self.targets
            .insert(label, definition.target.copy(self.alloc)?)?;
        Ok(())
    }

    /// Where the labels lead, where each unit was one of definitions.
    fn targets(self) -> Result<BTreeMap<Label, Target, Global>, EditFault>
        ensures { EndsAt self.other self.targets result }
    {
        match self.other {
            Some(line) => Err(EditFault::NotDefinitions { line }),
            None => Ok(self.targets),
        }
    }
}

/// No line is fed after a fault, so none is answered `Failed`.
fn fault_in_prelude(fault: BlockFault, line: usize) -> EditFault
    ensures { result ≡ fault_of fault line }
{
    match fault {
        BlockFault::NestedTooDeep => EditFault::NotDefinitions { line },
        BlockFault::NoMemory | BlockFault::Failed => EditFault::NoMemory,
    }
}
