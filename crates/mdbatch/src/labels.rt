//! The link labels that a text defines.
ghost use Rattle.std.specs.Prelude.{◌≡◌, OnOk, map};
ghost use Rattle.mdleaf.specs.DefinedLinks.{definition_of};
ghost use Rattle.mdsource.specs.LabelTable.{with_definitions};

use mdblock::Definition;
use mdinline::LabelTable;
use mdtext::NoMemory;
use std::alloc::Global;

/// Adds these definitions to the labels of those before them: the first definition of a label counts (CommonMark 4.7).
pub(crate) fn add_definitions(
    alloc: Global,
    labels: &mut LabelTable,
    definitions: &[Definition],
) -> Result<(), NoMemory>
    ensures { OnOk result (labels.new ≡ with_definitions labels.old (map definition_of definitions.now)) }
{
    for definition in definitions {
        labels.add(
            definition.label.copy(alloc)?,
            definition.target.copy(alloc)?,
        )?;
    }
    Ok(())
}
