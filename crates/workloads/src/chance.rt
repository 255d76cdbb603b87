//! Numbers by chance.
ghost use Rattle.std.specs.Prelude.{◌<◌, ◌≤◌};

/// Numbers by chance, the same from the same seed.
#[derive(Clone, Copy)]
pub struct Chance {
    state: u64,
}

impl Chance {
    /// The numbers of a seed.
    pub fn new(seed: u64) -> Chance {
        Chance {
            state: seed ^ 0x6A09_E667_F3BC_C908,
        }
    }

    /// The next number: a counter of odd steps, its bits mixed twice.
    pub fn next(&mut self) -> u64 {
        self.state = self.state.wrapping_add(0x9E37_79B9_7F4A_7C15);
        let once = (self.state ^ (self.state >> 30)).wrapping_mul(0xBF58_476D_1CE4_E5B9);
        let twice = (once ^ (once >> 27)).wrapping_mul(0x94D0_49BB_1331_11EB);
        twice ^ (twice >> 31)
    }

    /// A number below `end`.
    pub fn below(&mut self, end: usize) -> usize
        requires { 0 < end }
        ensures { result < end }
    {
        (self.next() % end as u64) as usize
    }

    /// A number from `low` on, and below `end`; `low` where that is not above it.
    pub fn between(&mut self, low: usize, end: usize) -> usize {
        if end <= low {
            return low;
        }
        low + self.below(end - low)
    }

    /// A size from `low` to `high`, of which half are nearer to `low` by their ratio.
    pub fn size(&mut self, low: usize, high: usize) -> usize {
        let mut size = low;
        for _ in 0..40 {
            let next = size.saturating_add(size / 4).saturating_add(1);
            if next >= high || self.below(12) == 0 {
                break;
            }
            size = next;
        }
        self.between(
            size,
            size.saturating_add(size / 4).saturating_add(1).min(high),
        )
    }

    /// True once in `times`.
    pub fn once_in(&mut self, times: usize) -> bool {
        times != 0 && self.below(times) == 0
    }

    /// One of the texts; the empty one where there is none.
    pub fn pick<'a>(&mut self, texts: &[&'a str]) -> &'a str {
        if texts.is_empty() {
            return "";
        }
        let i = self.below(texts.len());
        texts[i]
    }
}
