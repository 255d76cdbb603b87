//! Delimiter runs, and which of them fit each other.

ghost use Rattle.std.specs.Prelude.{◌≡◌, true};
ghost use Rattle.mdpair.specs.OpenersBottom.{IsSameKind};
ghost use Rattle.mdpair.specs.DelimiterRun.{can_both, lengths_match, is_admissible};

/// The character that a delimiter run is made of.
#[derive(Clone, Copy, Debug, Drop, PartialEq, Eq)]
pub enum DelimiterChar {
    /// `*`, of emphasis and strong emphasis.
    Asterisk,
    /// `_`, of emphasis and strong emphasis.
    Underscore,
    /// `~`, of strikethrough.
    Tilde,
}

/// A delimiter run of an inline text (CommonMark 6.2; of tildes GFM Strikethrough (extension)).
#[derive(Clone, Copy, Debug, Drop)]
pub struct DelimiterRun {
    /// The character that it is made of.
    pub delimiter: DelimiterChar,
    /// How many characters the run has; each is one byte.
    pub length: usize,
    /// Whether it can open emphasis or strikethrough.
    pub can_open: bool,
    /// Whether it can close emphasis or strikethrough.
    pub can_close: bool,
}

impl DelimiterRun {
    fn can_both(&self) -> bool
        ensures { result ≡ can_both self.now }
    {
        self.can_open && self.can_close
    }

    /// Whether this run may open what the run `closer` closes.
    pub(crate) fn may_open(&self, closer: &DelimiterRun) -> bool
        ensures { result ≡ is_admissible self.now closer.now }
    {
        self.can_open && self.delimiter == closer.delimiter && self.length_matches(closer)
    }

    /// Whether what may open for this closer may open for the other, and the other way round.
    pub(crate) fn is_same_kind(&self, other: &DelimiterRun) -> bool
        ensures { result ≡ true → IsSameKind self.now other.now }
    {
        if self.delimiter != other.delimiter || self.length % 3 != other.length % 3 {
            return false;
        }
        if self.can_both() != other.can_both() {
            return false;
        }
        self.delimiter != DelimiterChar::Tilde || self.length == other.length
    }

    /// The lengths are compared by their remainders, so that no sum can overflow.
    #[tactic(auto, using(crate::proofs::Thirds::thirds))]
    fn length_matches(&self, closer: &DelimiterRun) -> bool
        ensures { result ≡ lengths_match closer.now.delimiter self.now closer.now }
    {
        match closer.delimiter {
            DelimiterChar::Tilde => self.length == closer.length,
            _ => {
                !(self.can_both() || closer.can_both())
                    || (self.length % 3 + closer.length % 3) % 3 != 0
                    || (self.length % 3 == 0 && closer.length % 3 == 0)
            }
        }
    }
}
