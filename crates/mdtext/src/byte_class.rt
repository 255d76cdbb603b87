//! Small sets of bytes, and the first place of one in a text.
ghost use Rattle.std.specs.Prelude.{◌≡◌, ◌≤◌, [], ◌∷◌, length};
ghost use Rattle.std.specs.List.{position_or_len};
ghost use Rattle.mdtext.specs.ByteClass.{in_class};

use crate::byte_lanes::first_of_many;
use memchr::memchr;
use std::marker::Model;

/// A set of at most 16 bytes.
#[derive(Debug, Drop)]
pub struct Class {
    bytes: [u8; 16],
    len: usize,
}

impl Model for Class {
    ghost use Rattle.std.specs.Prelude.{List, ℕ, take, ◌≤◌};

    ghost Value = { List ℕ };

    ghost view = { λ class. take class.len class.bytes };

    ghost invariant = { λ class. class.len ≤ 16 };
}

impl Class {
    /// The set of these bytes. It takes no memory.
    #[inline(always)]
    pub fn of(bytes: &[u8]) -> Class
        requires { length bytes.now ≤ 16 }
        ensures { result ≡ bytes.now }
    {
        let len = bytes.len();
        let mut kept = [0; 16];
        kept[..len].copy_from_slice(bytes);
        Class { bytes: kept, len }
    }

    #[inline(always)]
    fn as_slice(&self) -> &[u8]
        ensures { result.now ≡ self.now }
    {
        &self.bytes[..self.len]
    }
}

/// The first position whose byte is in the class, or the length. It takes no memory.
#[inline(always)]
pub fn first_special(bytes: &[u8], class: &Class) -> usize
    ensures { result ≡ position_or_len (in_class class.now) bytes.now }
{
    match class.as_slice() {
        [one] => first_of_one(bytes, *one),
        [one, other] => first_of_two(bytes, *one, *other),
        members => first_of_many(bytes, members),
    }
}

#[inline(never)]
#[tactic(auto, using(crate::proofs::FirstPlaces::first_of_one))]
fn first_of_one(bytes: &[u8], one: u8) -> usize
    ensures { result ≡ position_or_len (in_class (one ∷ [])) bytes.now }
{
    memchr(one, bytes).unwrap_or(bytes.len())
}

#[inline(never)]
fn first_of_two(bytes: &[u8], one: u8, other: u8) -> usize
    ensures { result ≡ position_or_len (in_class (one ∷ other ∷ [])) bytes.now }
{
    first_of_many(bytes, &[one, other])
}
