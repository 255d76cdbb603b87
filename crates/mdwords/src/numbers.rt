//! The numbers of words.
ghost use Rattle.std.specs.Prelude.{◌≡◌};
ghost use Rattle.mdwords.specs.Numbers.{number};

/// The number of digits at the most.
const MAX_DIGITS: usize = 9;

/// The number that a word of 1 to 9 digits is; any other word is none.
pub fn number(word: &[u8]) -> Option<usize>
    ensures { result ≡ number word.now }
{
    if word.is_empty() || word.len() > MAX_DIGITS {
        return None;
    }
    let mut value = 0;
    for byte in word {
        if !byte.is_ascii_digit() {
            return None;
        }
        value = value * 10 + (*byte - b'0') as usize;
    }
    Some(value)
}
