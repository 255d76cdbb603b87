//! A site's pages.

use crate::digest::Digest;
use crate::maker::Maker;
use anyhow::Result;
use mdbatch::{Entities, Options, Prelude, to_html};
use mdtext::Tally;
use std::alloc::Global;

/// What all pages of a site share: HTML's names of characters, and the site's links.
#[derive(Drop)]
pub struct Site {
    pub entities: Entities,
    pub prelude: Prelude,
}

impl Site {
    pub fn new(alloc: Global, maker: &mut Maker<'_>) -> Result<Site> {
        let entities = Entities::from_json(alloc, maker.parts.entities)?;
        let options = Options::plain();
        let mut text = String::new(alloc);
        maker.guides(400, &mut text)?;
        let lines: Vec<&str> = text.lines().collect(alloc)?;
        let prelude = Prelude::read(alloc, &lines, &entities, &options, &mut Tally::new())?;
        Ok(Site { entities, prelude })
    }

    /// Turns a text into HTML, or takes in why it is refused.
    pub fn render(&self, alloc: Global, text: &str, digest: &mut Digest) {
        let options = Options::plain();
        match to_html(alloc, text, &self.entities, &options, &self.prelude) {
            Ok(html) => digest.text(html.as_bytes()),
            Err(fault) => digest.refusal(&fault),
        }
    }
}

/// So many pages of 1 to 50 KB.
pub fn pages(alloc: Global, count: u64, maker: &mut Maker<'_>, digest: &mut Digest) -> Result<()> {
    let site = Site::new(alloc, maker)?;
    let mut text = String::new(alloc);
    for _ in 0..count {
        text.clear();
        let size = maker.size(1_000, 50_000);
        maker.heading(&mut text)?;
        maker.sections(size, &mut text)?;
        site.render(alloc, &text, digest);
    }
    Ok(())
}
