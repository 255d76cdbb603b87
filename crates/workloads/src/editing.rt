//! A preview that is edited, with a digest of all that it answers.

use crate::digest::Digest;
use anyhow::Result;
use mdtext::Tally;
use mdview::{EditFault, Entities, Options, Patch, Preview};
use std::alloc::Global;

/// A preview, and what is done to it.
#[derive(Drop)]
pub struct Editor {
    alloc: Global,
    preview: Preview,
}

impl Editor {
    /// A preview with this text.
    pub fn open(alloc: Global, text: &str, digest: &mut Digest) -> Result<Editor> {
        let preview = Preview::new(alloc, Entities::builtin(alloc)?, Options::plain());
        let mut editor = Editor { alloc, preview };
        let lines: Vec<&str> = text.lines().collect(alloc)?;
        editor.edit(0, 0, &lines, digest)?;
        Ok(editor)
    }

    /// How many lines the text has.
    pub fn len(&self) -> usize {
        self.preview.len()
    }

    /// A copy of a line; an empty one past the end.
    pub fn line(&self, i: usize) -> Result<String> {
        let line = self.preview.line(i).unwrap_or("");
        Ok(String::from_str(self.alloc, line)?)
    }

    /// Replaces lines, and takes in the pieces that changed.
    pub fn edit(&mut self, at: usize, del: usize, add: &[&str], digest: &mut Digest) -> Result<()> {
        let mut tally = Tally::new();
        let answer = self.preview.edit(at, del, add, &mut tally);
        digest.tally(&tally);
        self.take_in(answer, digest)
    }

    /// Replaces the prelude, and takes in the pieces that changed.
    pub fn set_prelude(&mut self, lines: &[&str], digest: &mut Digest) -> Result<()> {
        let mut tally = Tally::new();
        let answer = self.preview.set_prelude(lines, &mut tally);
        digest.tally(&tally);
        self.take_in(answer, digest)
    }

    fn take_in(&mut self, answer: Result<Patch, EditFault>, digest: &mut Digest) -> Result<()> {
        let patch = match answer {
            Ok(patch) => patch,
            Err(fault) => {
                digest.refusal(&fault);
                return Ok(());
            }
        };
        digest.number(patch.first);
        digest.number(patch.removed);
        digest.number(patch.added);
        for (number, html) in patch.pieces(&self.preview)? {
            digest.number(number);
            digest.text(html.as_bytes());
        }
        Ok(())
    }

    /// The lines of a text come, and go again.
    pub fn paste(&mut self, at: usize, text: &str, digest: &mut Digest) -> Result<()> {
        let lines: Vec<&str> = text.lines().collect(self.alloc)?;
        self.edit(at, 0, &lines, digest)?;
        self.edit(at, lines.len(), &[], digest)
    }

    /// Takes a line away, and puts it in front of the one that has number `to` then.
    pub fn move_line(&mut self, from: usize, to: usize, digest: &mut Digest) -> Result<()> {
        let line = self.line(from)?;
        self.edit(from, 1, &[], digest)?;
        self.edit(to, 0, &[&line], digest)
    }

    /// Types so many letters at the end of a line, each an edit.
    pub fn type_letters(&mut self, at: usize, letters: usize, digest: &mut Digest) -> Result<()> {
        let mut line = self.line(at)?;
        for i in 0..letters {
            line.push(if i % 6 == 0 { ' ' } else { 'e' })?;
            self.edit(at, 1, &[&line], digest)?;
        }
        Ok(())
    }
}
