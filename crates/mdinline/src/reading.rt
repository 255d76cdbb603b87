//! The reading of a text as a tree.

ghost use Rattle.std.specs.Prelude.{◌≡◌, ◌<◌, ◌≤◌, IfOk, IsErrOf, OnOk};
ghost use Rattle.inlinespec.specs.Nesting.{nest};
ghost use Rattle.inlinespec.specs.TextTree.{asked, inl};
ghost use Rattle.mdinline.specs.declared.faults.InlineFault.TheVariants.{TooDeep};
ghost use Rattle.mdtext.specs.Counted.{counted};

use crate::asked::{Asked, AskedSet};
use crate::faults::InlineFault;
use crate::labels::Labels;
use crate::parsed::Parsed;
use crate::readers::TextReader;
use crate::trees::{TreeBuilder, TreeRoom};
use mdtext::{Count, Entities};
use std::alloc::Global;
use std::mem;

/// Reads an inline text, and counts it.
///
/// The tree and the labels are the definition's; labels that are looked up are asked for, found or not. `TooDeep` only where more than `limit` spans
/// (emphasis, strong emphasis, strikethrough, links, images) lie in one another, and no tree where they do; the limit is 1 to 256. After a fault nothing
/// is left but the count.
pub fn read<L: Labels, C: Count>(
    alloc: Global,
    text: &str,
    labels: &L,
    entities: &Entities,
    limit: usize,
    count: &mut C,
) -> Result<Parsed, InlineFault>
    requires least { 1 ≤ limit }
    requires most { limit ≤ 256 }
    ensures inlines { C.inlines count.new ≡ counted (C.inlines count.old) }
    ensures lines { C.lines count.new ≡ C.lines count.old }
    ensures tree { IfOk result (λ parsed. parsed.tree ≡ inl entities.now (L.target labels.now) text.now) }
    ensures within { OnOk result (nest (inl entities.now (L.target labels.now) text.now) ≤ limit) }
    ensures too_deep { IsErrOf result TooDeep → limit < nest (inl entities.now (L.target labels.now) text.now) }
    ensures asked { IfOk result (λ parsed. parsed.asked ≡ asked entities.now (L.target labels.now) text.now) }
{
    let mut reader = TextReader::new(alloc, entities);
    reader.read(text, labels, limit, count)
}

impl<'a> TextReader<'a> {
    /// Reads an inline text, and counts it: all as the function `read` does, with memory that is used again for the next text.
    pub fn read<L: Labels, C: Count>(
        &mut self,
        text: &str,
        labels: &'a L,
        limit: usize,
        count: &mut C,
    ) -> Result<Parsed, InlineFault>
        requires least { 1 ≤ limit }
        requires most { limit ≤ 256 }
        ensures inlines { C.inlines count.new ≡ counted (C.inlines count.old) }
        ensures lines { C.lines count.new ≡ C.lines count.old }
        ensures tree { IfOk result (λ parsed. parsed.tree ≡ inl self.old.entities.now (L.target labels.now) text.now) }
        ensures within { OnOk result (nest (inl self.old.entities.now (L.target labels.now) text.now) ≤ limit) }
        ensures too_deep { IsErrOf result TooDeep → limit < nest (inl self.old.entities.now (L.target labels.now) text.now) }
        ensures asked { IfOk result (λ parsed. parsed.asked ≡ asked self.old.entities.now (L.target labels.now) text.now) }
        ensures entities { self.new.entities ≡ self.old.entities }
    {
        count.inline();
        let mut asked = AskedSet::new(self.alloc);
        let room = mem::replace(&mut self.room, TreeRoom::new(self.alloc));
        let builder = TreeBuilder::new(self.alloc, room);
        let built = self.read_into(text, labels, &mut asked, builder, limit)?;
        let (row, room) = built.finish()?;
        self.room = room;
        let parsed = Parsed::new(self.alloc, row, asked.finish()?)?;
        Ok(parsed)
    }
}
