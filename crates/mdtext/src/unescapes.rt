//! Text after backslash escapes and references.
ghost use Rattle.std.specs.Prelude.{◌≡◌, ◌++◌, true, IfOk, OnErr, OnOk, string_bytes, string_len, take};
ghost use Rattle.std.specs.Str.{IsCharBoundary};
ghost use Rattle.mdtext.specs.ByteClass.{in_class};
ghost use Rattle.mdtext.specs.Unescaped.{added, escape, meaning, unescape_specials, unescaped};
ghost use Rattle.mdtext.specs.CharacterReferences.{reference, reference_or};
ghost use Rattle.mdtext.specs.Referents.{referent_text};

use crate::NoMemory;
use crate::byte_class::Class;
use crate::character_references::{Referent, byte_at, read_reference};
use crate::entity_table::Entities;
use crate::plain_runs::split_at_special;

/// Appends the text with each backslash escape (CommonMark 2.4) and each reference (CommonMark 2.5) replaced by what it
/// stands for. After `NoMemory` nothing is appended.
pub fn unescape(text: &str, entities: &Entities, out: &mut String) -> Result<(), NoMemory>
    ensures ok { OnOk result (string_bytes out.new ≡ string_bytes out.old ++ unescaped entities.now text.now) }
    ensures err { OnErr result (string_bytes out.new ≡ string_bytes out.old) }
{
    let len = out.len();
    if let Err(fault) = append_unescaped(text, entities, out) {
        out.truncate(len);
        return Err(fault);
    }
    Ok(())
}

// A failure leaves some of the text appended.
fn append_unescaped(text: &str, entities: &Entities, out: &mut String) -> Result<(), NoMemory>
    ensures ok { OnOk result (string_bytes out.new ≡ string_bytes out.old ++ unescaped entities.now text.now) }
    ensures keeps { take (string_len out.old) (string_bytes out.new) ≡ string_bytes out.old }
{
    out.reserve(text.len())?;
    let specials = Class::of(b"\\&");
    let mut rest = text;
    loop {
        let (plain, special) = split_at_special(rest, &specials);
        out.push_str(plain)?;
        let Some((byte, after)) = special else {
            return Ok(());
        };
        let taken = push_meaning(byte, after, entities, out)?;
        rest = &after[taken..];
    }
}

// Appends what a backslash or `&` stands for with what follows it, and answers how much of that goes with it.
fn push_meaning(
    byte: u8,
    after: &str,
    entities: &Entities,
    out: &mut String,
) -> Result<usize, NoMemory>
    requires { in_class unescape_specials byte ≡ true }
    ensures ok { IfOk result (λ taken. (taken, string_bytes out.new) ≡ added (string_bytes out.old) (meaning entities.now byte after.now)) }
    ensures cut { IfOk result (λ taken. IsCharBoundary after.now taken) }
    ensures err { OnErr result (string_bytes out.new ≡ string_bytes out.old) }
{
    if byte == b'\\' {
        return push_escape(after, out);
    }
    push_reference(after, entities, out)
}

fn push_escape(after: &str, out: &mut String) -> Result<usize, NoMemory>
    ensures ok { IfOk result (λ taken. (taken, string_bytes out.new) ≡ added (string_bytes out.old) (escape after.now)) }
    ensures cut { IfOk result (λ taken. IsCharBoundary after.now taken) }
    ensures err { OnErr result (string_bytes out.new ≡ string_bytes out.old) }
{
    if byte_at(after, 0).is_ascii_punctuation() {
        out.push_str(&after[..1])?;
        return Ok(1);
    }
    out.push_str("\\")?;
    Ok(0)
}

/// Appends what a `&` stands for with what follows it (CommonMark 2.5), and answers how much of that goes with it. After `NoMemory`
/// nothing is appended.
pub fn push_reference(after: &str, entities: &Entities, out: &mut String) -> Result<usize, NoMemory>
    ensures ok { IfOk result (λ taken. (taken, string_bytes out.new) ≡ added (string_bytes out.old) (reference_or 38 (reference entities.now after.now))) }
    ensures cut { IfOk result (λ taken. IsCharBoundary after.now taken) }
    ensures err { OnErr result (string_bytes out.new ≡ string_bytes out.old) }
{
    match read_reference(after, entities) {
        Some(reference) => {
            push_referent(reference.referent, out)?;
            Ok(reference.len - 1)
        }
        None => {
            out.push_str("&")?;
            Ok(0)
        }
    }
}

fn push_referent(referent: Referent, out: &mut String) -> Result<(), NoMemory>
    ensures ok { OnOk result (string_bytes out.new ≡ string_bytes out.old ++ referent_text referent.entry) }
    ensures err { OnErr result (string_bytes out.new ≡ string_bytes out.old) }
{
    match referent {
        Referent::Character(character) => out.push(character),
        Referent::Text(text) => out.push_str(text),
    }
}
