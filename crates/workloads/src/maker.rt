//! Parts of texts as people write them.

use crate::chance::Chance;
use crate::parts::Parts;
use anyhow::Result;

/// Puts texts together by chance.
#[derive(Drop)]
pub struct Maker<'a> {
    pub parts: Parts<'a>,
    pub chance: Chance,
    /// By what the sizes of texts are divided: 1, or more for a small run.
    pub share: usize,
}

impl<'a> Maker<'a> {
    pub fn new(parts: Parts<'a>, chance: Chance, share: usize) -> Maker<'a> {
        Maker {
            parts,
            chance,
            share,
        }
    }

    /// A size from `low` to `high`, of which half are nearer to `low` by their ratio, or the share of it.
    pub fn size(&mut self, low: usize, high: usize) -> usize {
        let size = self.chance.size(low, high);
        self.share_of(size)
    }

    /// The share of a size.
    pub fn share_of(&self, size: usize) -> usize {
        if self.share == 0 {
            return size;
        }
        size / self.share
    }

    pub fn sentence(&mut self) -> &'a str {
        self.chance.pick(self.parts.sentences)
    }

    pub fn title(&mut self) -> &'a str {
        self.chance.pick(self.parts.titles)
    }

    /// Appends sections until the text has at least so many bytes more.
    pub fn sections(&mut self, size: usize, out: &mut String) -> Result<()> {
        let end = out.len().saturating_add(size);
        for _ in 0..size {
            if out.len() >= end {
                break;
            }
            self.section(out)?;
            out.push('\n')?;
        }
        Ok(())
    }

    /// Appends a section: mostly paragraphs, some headings and lists, few of the others.
    fn section(&mut self, out: &mut String) -> Result<()> {
        match self.chance.below(100) {
            0..14 => self.heading(out),
            14..58 => {
                let count = self.chance.between(2, 6);
                self.paragraph(count, out)
            }
            58..68 => {
                let count = self.chance.between(2, 8);
                self.list(count, out)
            }
            68..73 => {
                let count = self.chance.between(2, 6);
                self.numbered(count, out)
            }
            73..77 => self.tasks(out),
            77..86 => self.fence(out),
            86..90 => self.quote(out),
            90..94 => {
                let rows = self.chance.between(2, 9);
                self.table(rows, out)
            }
            94..97 => self.html(out),
            97..99 => self.picture(out),
            _ => out.push_str("***\n").map_err(Into::into),
        }
    }

    pub fn heading(&mut self, out: &mut String) -> Result<()> {
        let level = self
            .chance
            .pick(&["# ", "## ", "## ", "### ", "### ", "#### "]);
        out.push_str(level)?;
        out.push_str(self.title())?;
        out.push('\n')?;
        Ok(())
    }

    /// So many sentences, some of them on a line of their own.
    pub fn paragraph(&mut self, count: usize, out: &mut String) -> Result<()> {
        for i in 0..count {
            if i != 0 {
                let between = self.chance.pick(&[" ", "\n", "\n", "  \n"]);
                out.push_str(between)?;
            }
            out.push_str(self.sentence())?;
        }
        out.push('\n')?;
        Ok(())
    }

    /// A list of so many items; some have items of their own, in some lists each has a second paragraph.
    pub fn list(&mut self, count: usize, out: &mut String) -> Result<()> {
        let is_loose = self.chance.once_in(4);
        self.list_of(count, is_loose, out)
    }

    /// A list of so many items, of which some have items of their own; in a loose one each has a second paragraph.
    pub fn list_of(&mut self, count: usize, is_loose: bool, out: &mut String) -> Result<()> {
        for _ in 0..count {
            self.line("- ", out)?;
            if self.chance.once_in(4) {
                self.line("  - ", out)?;
                self.line("  - ", out)?;
            }
            if is_loose {
                out.push('\n')?;
                self.line("  ", out)?;
                out.push('\n')?;
            }
        }
        Ok(())
    }

    pub fn numbered(&mut self, count: usize, out: &mut String) -> Result<()> {
        for i in 0..count {
            let number = i.wrapping_add(1);
            write!(out, "{number}. ")?;
            self.line("", out)?;
        }
        Ok(())
    }

    fn tasks(&mut self, out: &mut String) -> Result<()> {
        for _ in 0..self.chance.between(2, 7) {
            let mark = self.chance.pick(&["- [ ] ", "- [x] "]);
            self.line(mark, out)?;
        }
        Ok(())
    }

    pub fn fence(&mut self, out: &mut String) -> Result<()> {
        let info = self
            .chance
            .pick(&["```\n", "```rust\n", "```sh\n", "```python\n"]);
        out.push_str(info)?;
        for _ in 0..self.chance.between(3, 15) {
            self.code(out)?;
        }
        out.push_str("```\n")?;
        Ok(())
    }

    /// A line of a program.
    pub fn code(&mut self, out: &mut String) -> Result<()> {
        out.push_str(self.chance.pick(self.parts.code))?;
        out.push('\n')?;
        Ok(())
    }

    fn quote(&mut self, out: &mut String) -> Result<()> {
        for _ in 0..self.chance.between(1, 4) {
            self.line("> ", out)?;
        }
        Ok(())
    }

    /// A table of three columns and so many rows.
    pub fn table(&mut self, rows: usize, out: &mut String) -> Result<()> {
        out.push_str("| name | what | when |\n| :-- | --- | --: |\n")?;
        for _ in 0..rows {
            self.row(out)?;
        }
        Ok(())
    }

    pub fn row(&mut self, out: &mut String) -> Result<()> {
        out.push_str("| `")?;
        out.push_str(self.title())?;
        out.push_str("` | ")?;
        out.push_str(self.sentence())?;
        let day = self.chance.below(366);
        write!(out, " | {day} |\n")?;
        Ok(())
    }

    fn html(&mut self, out: &mut String) -> Result<()> {
        out.push_str("<div class=\"note\">\n")?;
        self.line("<p>", out)?;
        out.push_str("</div>\n")?;
        Ok(())
    }

    fn picture(&mut self, out: &mut String) -> Result<()> {
        out.push_str("![")?;
        out.push_str(self.title())?;
        let number = self.chance.below(1000);
        write!(out, "](/img/{number}.png \"a picture\")\n")?;
        Ok(())
    }

    /// A sentence on a line, behind a mark.
    pub fn line(&mut self, mark: &str, out: &mut String) -> Result<()> {
        out.push_str(mark)?;
        out.push_str(self.sentence())?;
        out.push('\n')?;
        Ok(())
    }

    /// Definitions of the labels `guide 0`, `guide 1` and on.
    pub fn guides(&mut self, count: usize, out: &mut String) -> Result<()> {
        for i in 0..count {
            let page = self.chance.below(100_000);
            write!(out, "[guide {i}]: /guides/{page} '")?;
            out.push_str(self.title())?;
            out.push_str("'\n")?;
        }
        Ok(())
    }
}
