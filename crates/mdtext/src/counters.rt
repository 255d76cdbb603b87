//! Counters of what an edit reads.
ghost use Rattle.std.specs.Prelude.{◌≡◌, ℕ};
ghost use Rattle.mdtext.specs.Counted.{counted};

/// Counts the lines and the inline texts that are read. A number stays at its greatest value, 2^64 - 1.
pub trait Count {
    ghost lines: { Self → ℕ };

    ghost inlines: { Self → ℕ };

    /// One more line was read.
    fn line(&mut self)
        ensures line { lines self.new ≡ counted (lines self.old) }
        ensures inline { inlines self.new ≡ inlines self.old };

    /// One more inline text was read.
    fn inline(&mut self)
        ensures inline { inlines self.new ≡ counted (inlines self.old) }
        ensures line { lines self.new ≡ lines self.old };
}

/// A counter that begins at 0 and 0. None of its calls takes memory.
#[derive(Clone, Copy, Debug, PartialEq, Eq)]
pub struct Tally {
    lines: u64,
    inlines: u64,
}

impl Tally {
    /// A counter at 0 lines and 0 inline texts.
    pub fn new() -> Self
        ensures lines { ⟦<Tally as Count>⟧.lines result ≡ 0 }
        ensures inlines { ⟦<Tally as Count>⟧.inlines result ≡ 0 }
    {
        Tally {
            lines: 0,
            inlines: 0,
        }
    }

    /// How many lines were read.
    pub fn lines(&self) -> u64
        ensures { result ≡ ⟦<Tally as Count>⟧.lines self.now }
    {
        self.lines
    }

    /// How many inline texts were read.
    pub fn inlines(&self) -> u64
        ensures { result ≡ ⟦<Tally as Count>⟧.inlines self.now }
    {
        self.inlines
    }
}

impl Count for Tally {
    ghost lines = { λ tally. tally.lines };

    ghost inlines = { λ tally. tally.inlines };

    fn line(&mut self) {
        self.lines = self.lines.saturating_add(1);
    }

    fn inline(&mut self) {
        self.inlines = self.inlines.saturating_add(1);
    }
}
