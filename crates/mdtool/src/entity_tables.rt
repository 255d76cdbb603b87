//! Reads an entity file.
ghost use Rattle.std.specs.Prelude.{◌≡◌, ◌-◌, ◌^◌, ◌<◌};
ghost use Rattle.mdtool.specs.EntityTables.{EntitiesRead};
ghost use Rattle.mdtool.specs.Steps.{failures_after};

use crate::device::Feed;
use crate::draining::read_all;
use crate::fault::ToolFault;
use mdtext::{Entities, TableFault};
use std::alloc::Global;

/// The entities of all bytes that the feed has left, a JSON file as HTML's file of names is (CommonMark 2.5).
///
/// `Table` says why the bytes are no such file. `Read` comes where the feed failed, `NoMemory` where a growth was refused; then some of its bytes may be gone.
pub fn entities_from<R: Feed>(alloc: Global, feed: &mut R) -> Result<Entities, ToolFault>
    requires { R.failures feed.old < 2 ^ 64 - 1 }
    ensures read { EntitiesRead result (R.left feed.old) (R.left feed.new) }
    ensures failures { R.failures feed.new ≡ failures_after result (R.failures feed.old) }
{
    let bytes = read_all(alloc, feed)?;
    match Entities::from_json(alloc, &bytes) {
        Ok(entities) => Ok(entities),
        Err(TableFault::NotJson) => Err(ToolFault::Table(TableFault::NotJson)),
        Err(TableFault::BadEntry) => Err(ToolFault::Table(TableFault::BadEntry)),
        Err(TableFault::NoMemory) => Err(ToolFault::NoMemory),
    }
}
