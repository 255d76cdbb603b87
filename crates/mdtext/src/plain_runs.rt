//! The runs of plain bytes in a text.
ghost use Rattle.std.specs.Prelude.{◌≡◌, ◌<◌, ◌++◌, ◌∷◌, ℕ, true, false, IfSome, MatchOption};
ghost use Rattle.std.specs.List.{list_any};
ghost use Rattle.std.specs.Str.{IsUtf8};
ghost use Rattle.mdtext.specs.ByteClass.{in_class};

use crate::byte_class::{Class, first_special};

/// The text up to its first byte of a class, and that byte with what follows it. It takes no memory. Each caller has a class of its own, for which the search
/// is made.
#[inline(always)]
pub fn split_at_special<'a>(text: &'a str, class: &Class) -> (&'a str, Option<(u8, &'a str)>)
    requires { (b : ℕ) → in_class class.now b ≡ true → b < 128 }
    ensures plain { list_any (in_class class.now) result.0.now ≡ false }
    ensures whole { MatchOption result.1 (text.now ≡ result.0.now) (λ special. text.now ≡ result.0.now ++ special.0 ∷ special.1.now) }
    ensures text { IfSome result.1 (λ special. IsUtf8 special.1.now) }
    ensures special { IfSome result.1 (λ special. in_class class.now special.0 ≡ true) }
{
    let stop = first_special(text.as_bytes(), class);
    let plain = &text[..stop];
    if stop == text.len() {
        return (plain, None);
    }
    (plain, Some((text.as_bytes()[stop], &text[stop + 1..])))
}
