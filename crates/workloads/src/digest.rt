//! A digest of answers.

use mdtext::Tally;
use mdview::EditFault;
use std::fmt;

/// Takes in answers, and shows how many there were, of how many bytes, and a number that any change of them changes.
#[derive(Drop)]
pub struct Digest {
    state: u64,
    count: u64,
    bytes: u64,
}

impl Digest {
    pub fn new() -> Digest {
        Digest {
            state: 0x243F_6A88_85A3_08D3,
            count: 0,
            bytes: 0,
        }
    }

    /// Takes in an answer's bytes, eight at a time.
    pub fn text(&mut self, bytes: &[u8]) {
        let (words, rest) = bytes.as_chunks::<8>();
        for word in words {
            self.mix(u64::from_le_bytes(*word));
        }
        for byte in rest {
            self.mix(u64::from(*byte));
        }
        self.count = self.count.wrapping_add(1);
        self.bytes = self.bytes.wrapping_add(bytes.len() as u64);
        self.mix(bytes.len() as u64);
    }

    /// Takes in a number.
    pub fn number(&mut self, number: usize) {
        self.mix(number as u64);
    }

    /// Takes in a refusal: its name and its number.
    pub fn refusal(&mut self, fault: &EditFault) {
        self.text(fault.name().as_bytes());
        self.number(fault.number());
    }

    /// Takes in how many lines and inline texts a call read.
    pub fn tally(&mut self, tally: &Tally) {
        self.mix(tally.lines());
        self.mix(tally.inlines());
    }

    #[inline(always)]
    fn mix(&mut self, word: u64) {
        self.state = (self.state ^ word)
            .wrapping_mul(0x9FB2_1C65_1E98_DF25)
            .rotate_left(29);
    }
}

impl fmt::Display for Digest {
    fn fmt<W: fmt::Write>(&self, f: &mut fmt::Formatter<W>) -> fmt::Result {
        let count = self.count;
        let bytes = self.bytes;
        let state = self.state;
        write!(f, "{count} answers, {bytes} bytes, digest {state:016x}")
    }
}
