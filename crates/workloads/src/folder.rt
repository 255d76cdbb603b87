//! A folder of files, each turned into HTML by a process of its own.

use crate::digest::Digest;
use crate::maker::Maker;
use anyhow::Result;
use mdbatch::Options;
use mdtool::{MemoryFeed, MemoryOut, ToolFault, convert, entities_from, prelude_from};
use std::alloc::{AllocError, Global};

/// How many bytes a device gives or takes at a call.
const STEP: usize = 65_536;

/// What so many processes do: each reads a file of entities, which has HTML's names and one of its own, a prelude, and a text of 1 to 10 KB, and writes the HTML.
pub fn folder(alloc: Global, count: u64, maker: &mut Maker<'_>, digest: &mut Digest) -> Result<()> {
    for i in 0..count {
        let names = with_own_name(alloc, maker.parts.entities, i)?;
        let mut links = String::new(alloc);
        maker.guides(60, &mut links)?;
        let mut text = String::new(alloc);
        let size = maker.size(1_000, 10_000);
        maker.heading(&mut text)?;
        maker.sections(size, &mut text)?;
        process(alloc, &names, links.as_bytes(), text.as_bytes(), digest)?;
    }
    Ok(())
}

/// A file of entities with one more name at its begin.
fn with_own_name(alloc: Global, file: &[u8], i: u64) -> Result<Vec<u8>, AllocError> {
    let own = format!(in alloc;
        "{{\n  \"&own{i};\": {{\"codepoints\": [9875], \"characters\": \"\\u2693\"}},"
    )?;
    let mut names = Vec::with_capacity(alloc, file.len().saturating_add(own.len()))?;
    names.extend_from_slice(own.as_bytes())?;
    if let Some((_, rest)) = file.split_first() {
        names.extend_from_slice(rest)?;
    }
    Ok(names)
}

/// What `mdrender --entities --prelude` does with these files.
fn process(
    alloc: Global,
    names: &[u8],
    links: &[u8],
    text: &[u8],
    digest: &mut Digest,
) -> Result<()> {
    let entities = entities_from(alloc, &mut MemoryFeed::new(names, STEP, None))?;
    let prelude = prelude_from(alloc, &mut MemoryFeed::new(links, STEP, None))?;
    let mut out = MemoryOut::new(alloc, STEP, None);
    let options = Options::plain();
    match convert(
        alloc,
        &mut MemoryFeed::new(text, STEP, None),
        &mut out,
        entities,
        options,
        &prelude,
    ) {
        Ok(()) => digest.text(out.bytes()),
        Err(ToolFault::Refused(fault)) => digest.refusal(&fault),
        Err(fault) => {
            let words = format!(in alloc; "{fault}")?;
            digest.text(words.as_bytes());
        }
    }
    Ok(())
}
