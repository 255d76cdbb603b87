//! The entities that are built in.
ghost use Rattle.mdtool.specs.BuiltInEntities.{HtmlRead, IsBuiltIn};

use crate::fault::ToolFault;
use mdtext::{Entities, TableFault};
use std::alloc::Global;

/// All of HTML's names where they are asked for, and else the usual ones.
pub fn built_in_entities(alloc: Global, html: bool) -> Result<Entities, ToolFault>
    ensures { IsBuiltIn html result }
{
    if html {
        return html_entities(alloc);
    }
    match Entities::builtin(alloc) {
        Ok(entities) => Ok(entities),
        Err(_) => Err(ToolFault::NoMemory),
    }
}

fn html_entities(alloc: Global) -> Result<Entities, ToolFault>
    ensures { HtmlRead result }
{
    match Entities::html(alloc) {
        Ok(entities) => Ok(entities),
        Err(TableFault::NotJson) => Err(ToolFault::Table(TableFault::NotJson)),
        Err(TableFault::BadEntry) => Err(ToolFault::Table(TableFault::BadEntry)),
        Err(TableFault::NoMemory) => Err(ToolFault::NoMemory),
    }
}
