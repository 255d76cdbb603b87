//! An entity file, read from its tokens with no tree of its values.
//!
//! `pass_value` has the shape of `serde_json`'s reader of values, so that it takes and refuses the same tokens.
ghost use Rattle.std.specs.Prelude.{◌≡◌, ◌≢◌, ◌<◌, [], IfErr, IfOk, IsErr, IsSome, None, Ok, Err, OnOk, Some, is_some, length, option_and_then, option_map, true};
ghost use Rattle.serde_json.specs.Data.{Data, Items, Members};
ghost use Rattle.serde_json.specs.Find.{as_object, as_str};
ghost use Rattle.serde_json.specs.Read.{number_from, number_of};
ghost use Rattle.mdtext.specs.EntityFile.{characters_of, file_names, with_members};
ghost use Rattle.mdtext.specs.EntityReading.{characters_among, items_at, members_at, value_at, whole_at};
ghost use Rattle.mdtext.specs.MemberTexts.{AreHeld, gathered, given_table};

use crate::character_references::{byte_at, digit_count};
use crate::entity_file::TableFault;
use crate::member_texts::MemberTexts;
use crate::named_texts::NamedTexts;
use fast_float::Numeral;
use json::{Invalid, Reader, Scratch, Token};
use std::alloc::Global;

// How deep the values of a file's members may nest, as `serde_json` limits it.
const DEPTH: usize = 126;

// What is asked of a value that was passed.
#[derive(Clone, Copy)]
struct Passed<'a> {
    // Its text, where it is one.
    text: Option<&'a str>,
    // The text `characters` in it, where it has one.
    characters: Option<&'a str>,
}

const PLAIN: Passed<'static> = Passed {
    text: None,
    characters: None,
};

/// The table of a file.
pub fn read_table(alloc: Global, text: &str) -> Result<NamedTexts, TableFault>
    ensures ok { IfOk result (λ texts. file_names text.now ≡ Ok texts) }
    ensures err { IfErr result (λ fault. fault ≢ TableFault.NoMemory → file_names text.now ≡ Err fault) }
{
    let mut scratch = Scratch::new(alloc);
    let mut reader = Reader::new(text, &mut scratch)?;
    let members = read_file(alloc, &mut reader)?;
    members.into_table(alloc)
}

fn read_file(alloc: Global, reader: &mut Reader<'_>) -> Result<MemberTexts, TableFault>
    ensures held { IfOk result AreHeld }
    ensures ok { IfOk result (λ members. (found : Members) × (option_and_then as_object (whole_at reader.old) ≡ Some found) × (with_members found [] ≡ given_table (gathered members))) }
    ensures err { IfErr result (λ fault. fault ≢ TableFault.NoMemory → (fault ≡ TableFault.NotJson) × (option_and_then as_object (whole_at reader.old) ≡ None)) }
{
    let Some(token) = reader.next() else {
        return Err(TableFault::NotJson);
    };
    let Token::BeginObject = token else {
        return Err(TableFault::NotJson);
    };
    let members = read_members(alloc, reader)?;
    match reader.next() {
        Some(_) => Err(TableFault::NotJson),
        None => Ok(members),
    }
}

fn read_members(alloc: Global, reader: &mut Reader<'_>) -> Result<MemberTexts, TableFault>
    ensures held { IfOk result AreHeld }
    ensures ok { IfOk result (λ members. (found : Members) × (members_at 126 reader.old ≡ Some (found, reader.new)) × (with_members found [] ≡ given_table (gathered members))) }
    ensures err { IfErr result (λ fault. fault ≢ TableFault.NoMemory → (fault ≡ TableFault.NotJson) × (members_at 126 reader.old ≡ None)) }
{
    let mut members = MemberTexts::new(alloc);
    while let Some(key) = reader.next_key().map_err(not_json)? {
        let Ok(passed) = pass_value(reader, DEPTH) else {
            return Err(TableFault::NotJson);
        };
        members.add(key, passed.characters)?;
    }
    Ok(members)
}

fn not_json(_invalid: Invalid) -> TableFault
    ensures { result ≡ TableFault.NotJson }
{
    TableFault::NotJson
}

#[cycle(pass_value)]
#[inline(always)]
fn pass_value<'a>(reader: &mut Reader<'a>, depth: usize) -> Result<Passed<'a>, Invalid>
    ensures ok { IfOk result (λ passed. (d : Data) × (value_at depth reader.old ≡ Some (d, reader.new))
        × (option_map (λ s. s.now) passed.text ≡ as_str d) × (option_map (λ s. s.now) passed.characters ≡ characters_of d)) }
    ensures err { IsErr result → value_at depth reader.old ≡ None }
    ensures shorter { OnOk result (length reader.new < length reader.old) }
{
    let token = reader.next().ok_or(Invalid)?;
    match token {
        Token::String(text) => Ok(Passed {
            text: Some(text),
            characters: None,
        }),
        Token::Number(text) => if is_number(text) {
            Ok(PLAIN)
        } else {
            Err(Invalid)
        },
        Token::Bool(_) => Ok(PLAIN),
        Token::Null => Ok(PLAIN),
        Token::EndObject | Token::EndArray | Token::Key(_) | Token::Bad => Err(Invalid),
        Token::BeginArray => {
            if depth == 0 {
                return Err(Invalid);
            }
            pass_items(reader, depth - 1)?;
            Ok(PLAIN)
        }
        Token::BeginObject => {
            if depth == 0 {
                return Err(Invalid);
            }
            Ok(Passed {
                text: None,
                characters: pass_fields(reader, depth - 1)?,
            })
        }
    }
}

#[cycle(pass_value)]
#[inline(never)]
fn pass_items(reader: &mut Reader<'_>, depth: usize) -> Result<(), Invalid>
    ensures ok { OnOk result ((ds : Items) × (items_at depth reader.old ≡ Some (ds, reader.new))) }
    ensures err { IsErr result → items_at depth reader.old ≡ None }
    ensures shorter { OnOk result (length reader.new < length reader.old) }
{
    while !reader.take_end_array() {
        pass_value(reader, depth)?;
    }
    Ok(())
}

// The text `characters` of an object, where it has one.
#[cycle(pass_value)]
#[inline(never)]
fn pass_fields<'a>(reader: &mut Reader<'a>, depth: usize) -> Result<Option<&'a str>, Invalid>
    ensures ok { IfOk result (λ text. (found : Members) × (members_at depth reader.old ≡ Some (found, reader.new)) × (option_map (λ s. s.now) text ≡ characters_among found)) }
    ensures err { IsErr result → members_at depth reader.old ≡ None }
    ensures shorter { OnOk result (length reader.new < length reader.old) }
{
    let mut characters = None;
    while let Some(key) = reader.next_key()? {
        let passed = pass_value(reader, depth)?;
        if key == "characters" {
            characters = passed.text;
        }
    }
    Ok(characters)
}

// Whether a number is an integer of 64 bits or nearest to a finite float.
fn is_number(text: &str) -> bool
    ensures { result ≡ is_some (number_of text.now) }
{
    if is_short_numeral(text) {
        return true;
    }
    let bytes = text.as_bytes();
    if byte_at(text, 0) == b'-' {
        is_in_range(true, &Numeral::scan(&bytes[1..]))
    } else {
        is_in_range(false, &Numeral::scan(bytes))
    }
}

// Whether a number is made of at most 19 digits, as most are.
fn is_short_numeral(text: &str) -> bool
    ensures { result ≡ true → IsSome (number_of text.now) }
{
    let len = text.len();
    if len == 0 {
        return false;
    }
    if 19 < len {
        return false;
    }
    digit_count(text, 10) == len
}

fn is_in_range(negative: bool, numeral: &Numeral<'_>) -> bool
    ensures { result ≡ is_some (number_from negative numeral.now) }
{
    let integer = if negative {
        match numeral.to_i64(true) {
            Some(number) => number < 0,
            None => false,
        }
    } else {
        numeral.to_u64().is_some()
    };
    integer || numeral.to_float::<f64>(negative).is_finite()
}
