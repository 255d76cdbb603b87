//! Entity files: those that are read, and those that are refused.

use mdtext::{Entities, TableFault};
use std::alloc::{AllocError, Global};
use std::error::Error;
use std::process::Abort;
use std::test::Fail;

fn refusal(alloc: Global, bytes: &[u8]) -> Option<TableFault> {
    match Entities::from_json(alloc, bytes) {
        Ok(_) => None,
        Err(fault) => Some(fault),
    }
}

/// Whether each name has its text in a file.
pub(super) fn check_names(
    rt: &impl Abort,
    entities: &Entities,
    names: &[(&str, Option<&str>)],
    file: &str,
) {
    for &(name, want) in names {
        assert!(rt; entities.get(name) == want, "{name:?} in {file:?}");
    }
}

/// Reads a file, and compares the texts of these names.
fn check_file(
    rt: &impl Abort,
    alloc: Global,
    file: &str,
    names: &[(&str, Option<&str>)],
) -> Result<(), Fail> {
    let entities = Entities::from_json(alloc, file.as_bytes())?;
    check_names(rt, &entities, names, file);
    Ok(())
}

/// Entities as they are printed: on one line, or on many.
fn printed(alloc: Global, entities: &Entities, is_long: bool) -> Result<String, AllocError> {
    if is_long {
        return format!(in alloc; "{entities:#?}");
    }
    format!(in alloc; "{entities:?}")
}

/// A file's entities as they are printed.
fn shown_of(alloc: Global, file: &str, is_long: bool) -> Result<String, Fail> {
    let entities = Entities::from_json(alloc, file.as_bytes())?;
    Ok(printed(alloc, &entities, is_long)?)
}

/// Prints a file's entities, and compares that.
fn check_shown(
    rt: &impl Abort,
    alloc: Global,
    file: &str,
    is_long: bool,
    want: &str,
) -> Result<(), Fail> {
    let shown = shown_of(alloc, file, is_long)?;
    assert_eq!(rt; shown.as_str(), want);
    Ok(())
}

static TEXTS_OF_A_FILE: [(&str, Option<&str>); 5] = [
    ("a", Some("A\u{1F600}")),
    ("b1", Some("")),
    ("amp", None),
    ("x", None),
    ("", None),
];

#[test]
fn entities_of_a_file(rt: HostRuntime) -> Result<(), Fail> {
    let bytes =
        "{\"&a;\":{\"characters\":\"\\u00e4\",\"codepoints\":[228]},\"&b1;\":{\"characters\":\"\"},\
        \"&amp\":{\"characters\":\"&\"},\"x\":0,\"&a;\":{\"characters\":\"A\u{1F600}\"}}";
    check_file(&rt, rt.alloc(), bytes, &TEXTS_OF_A_FILE)
}

static WITHOUT_ENTITIES: [&str; 4] = ["{\"&a\":5}", "{}", " {\"\":null}\n", "{\"&a;b\":1}"];

#[test]
fn files_without_entities(rt: HostRuntime) -> Result<(), Fail> {
    for &bytes in &WITHOUT_ENTITIES {
        check_file(&rt, rt.alloc(), bytes, &[("a", None), ("amp", None)])?;
    }
    Ok(())
}

static OTHER_SHAPES: [&str; 6] = [
    // Names in no order, and one that begins another.
    "{\"&b;\":{\"characters\":\"2\"},\"&a1;\":{\"characters\":\"3\"},\"&a;\":{\"characters\":\"1\"}}",
    // A name twice, the second time with an escape.
    "{\"&a;\":{\"characters\":\"0\"},\"&a1;\":{\"characters\":\"3\"},\"&b;\":{\"characters\":\"2\"},\"&\\u0061;\":{\"characters\":\"1\"}}",
    // A bad member that a later one takes the place of.
    "{\"&a;\":7,\"&a1;\":{\"characters\":\"3\"},\"&b;\":{\"characters\":\"2\"},\"&a;\":{\"characters\":\"1\"}}",
    // Members with no text that later ones take the place of, and their texts once more.
    "{\"&b;\":{},\"&a;\":7,\"&a1;\":{\"characters\":\"3\"},\"&b;\":{\"characters\":\"0\"},\"&a;\":{\"characters\":\"1\"},\"&b;\":null,\"&b;\":{\"characters\":\"2\"}}",
    // `characters` twice.
    "{\"&a;\":{\"characters\":7,\"characters\":\"1\"},\"&a1;\":{\"characters\":\"3\"},\"&b;\":{\"characters\":\"0\",\"characters\":\"2\"}}",
    // Values of each kind.
    "{\"&a;\":{\"x\":[-1.5e3,{\"characters\":\"0\"},[[]],null,true],\"characters\":\"1\"},\"&a1;\":{\"characters\":\"3\",\"y\":[12345678901234567890,123456789012345678901234567890,-9223372036854775809,-0,0.5e-7]},\"&b;\":{\"characters\":\"2\"},\"z\":[{}]}",
];

static TEXTS_OF_OTHER_SHAPES: [(&str, Option<&str>); 6] = [
    ("a", Some("1")),
    ("b", Some("2")),
    ("a1", Some("3")),
    ("a2", None),
    ("", None),
    ("c", None),
];

#[test]
fn files_of_other_shapes(rt: HostRuntime) -> Result<(), Fail> {
    for &bytes in &OTHER_SHAPES {
        check_file(&rt, rt.alloc(), bytes, &TEXTS_OF_OTHER_SHAPES)?;
    }
    Ok(())
}

/// A file of a name twice, the first time with a text of 110,000 characters.
fn file_of_a_long_text(alloc: Global) -> Result<String, AllocError> {
    let mut file = String::from_str(alloc, "{\"&a;\":{\"characters\":\"")?;
    for _ in 0..10_000 {
        file.push_str("first text ")?;
    }
    file.push_str("\"},\"&b;\":{\"characters\":\"2\"},\"&a;\":{\"characters\":\"1\"}}")?;
    Ok(file)
}

#[test]
fn of_a_name_twice_the_second_text_is_left(rt: HostRuntime) -> Result<(), Fail> {
    let twice = file_of_a_long_text(rt.alloc())?;
    check_file(
        &rt,
        rt.alloc(),
        &twice,
        &[("a", Some("1")), ("b", Some("2"))],
    )?;
    let once = "{\"&a;\":{\"characters\":\"1\"},\"&b;\":{\"characters\":\"2\"}}";
    let want = shown_of(rt.alloc(), once, false)?;
    check_shown(&rt, rt.alloc(), &twice, false, &want)
}

#[test]
fn entities_are_shown_as_a_map(rt: HostRuntime) -> Result<(), Fail> {
    let file = "{\"&b;\":{\"characters\":\"\\\"\\u00a0\"},\"&a;\":{\"characters\":\"1\"}}";
    let line = "Entities { texts: {\"a\": \"1\", \"b\": \"\\\"\\u{a0}\"}, double_tilde: false }";
    check_shown(&rt, rt.alloc(), file, false, line)?;
    let lines =
        "Entities {\n    texts: {\n        \"a\": \"1\",\n        \"b\": \"\\\"\\u{a0}\",\n    },\n    double_tilde: false,\n}";
    check_shown(&rt, rt.alloc(), file, true, lines)?;
    check_shown(
        &rt,
        rt.alloc(),
        "{}",
        false,
        "Entities { texts: {}, double_tilde: false }",
    )
}

/// The number in the name of a file's member, by its place.
fn number_at(place: usize, flipped: usize) -> usize {
    (place ^ flipped).saturating_add(10_000)
}

/// A member of a file, behind another.
fn member_of(alloc: Global, number: usize) -> Result<String, AllocError> {
    format!(in alloc; ",\"&n{number};\":{{\"characters\":\"{number}\"}}")
}

/// A file of so many names. They rise where no bits are flipped, and fall in blocks of the size of the flipped bits.
fn file_of(alloc: Global, count: usize, flipped: usize) -> Result<String, AllocError> {
    let mut file = String::from_str(alloc, "{\"\":0")?;
    for place in 0..count {
        let number = number_at(place, flipped);
        file.push_str(&member_of(alloc, number)?)?;
    }
    file.push_str("}")?;
    Ok(file)
}

/// Reads a file of so many names, and compares the text of each.
fn check_numbers(
    rt: &impl Abort,
    alloc: Global,
    file: &str,
    count: usize,
    flipped: usize,
) -> Result<(), Fail> {
    let entities = Entities::from_json(alloc, file.as_bytes())?;
    for place in 0..count {
        let name = format!(in alloc; "n{}", number_at(place, flipped))?;
        assert_eq!(rt; entities.get(&name), name.get(1..), "{count} {flipped}");
    }
    Ok(())
}

static COUNTS: [usize; 4] = [20, 21, 65, 1500];

static FLIPPED: [usize; 4] = [0, 63, 1023, 2047];

#[test]
fn many_names_in_any_order(rt: HostRuntime) -> Result<(), Fail> {
    for &count in &COUNTS {
        for &flipped in &FLIPPED {
            let file = file_of(rt.alloc(), count, flipped)?;
            check_numbers(&rt, rt.alloc(), &file, count, flipped)?;
        }
    }
    Ok(())
}

fn check_refusal(rt: &impl Abort, alloc: Global, file: &[u8], want: TableFault) {
    assert_eq!(rt; refusal(alloc, file), Some(want), "{file:?}");
}

static NOT_JSON: [&str; 16] = [
    "",
    "[]",
    "null",
    "5",
    "\"&a;\"",
    "{",
    "{\"&a;\":{\"characters\":\"x\"}",
    "{} {}",
    "{\"&a;\":{\"characters\":\"\\ud800\"}}",
    "\u{FEFF}{}",
    "{\"&a;\":{\"characters\":\"x\",\"y\":1e999}}",
    "{\"&a;\":5,\"&b;\":{\"characters\":\"x\"}",
    "{\"&a;\":{\"characters\":\"x\",\"y\":01}}",
    "{\"&a;\":{\"characters\":\"x\",\"y\":-1e999}}",
    "{\"a;\":{\"characters\":\"x\"}} {}",
    "{\"&a;\":5,\"b\":[1,]}",
];

static BAD_ENTRIES: [&str; 16] = [
    "{\"&;\":{\"characters\":\"x\"}}",
    "{\";\":{\"characters\":\"x\"}}",
    "{\"a;\":{\"characters\":\"x\"}}",
    "{\"&a b;\":{\"characters\":\"x\"}}",
    "{\"&&a;\":{\"characters\":\"x\"}}",
    "{\"&\u{E4};\":{\"characters\":\"x\"}}",
    "{\"&a;;\":{\"characters\":\"x\"}}",
    "{\"&a;\":5}",
    "{\"&a;\":\"characters\"}",
    "{\"&a;\":{}}",
    "{\"&a;\":{\"characters\":5}}",
    "{\"&a;\":{\"characters\":[\"x\"]}}",
    "{\"&a;\":{\"characters\":\"x\"},\"&b;\":null}",
    "{\"&a;\":{\"characters\":\"x\"},\"&a;\":{}}",
    "{\"&a;\":[],\"&b;\":{\"characters\":\"x\"},\"&a;\":{\"characters\":null}}",
    "{\"a;\":{\"characters\":\"x\"},\"a;\":{\"characters\":\"x\"}}",
];

#[test]
fn files_that_are_refused(rt: HostRuntime) {
    for &file in &NOT_JSON {
        check_refusal(&rt, rt.alloc(), file.as_bytes(), TableFault::NotJson);
    }
    check_refusal(&rt, rt.alloc(), b"{\"\xFF\":1}", TableFault::NotJson);
    for &file in &BAD_ENTRIES {
        check_refusal(&rt, rt.alloc(), file.as_bytes(), TableFault::BadEntry);
    }
}

/// A file of one member, whose value is so many lists in one another.
fn nested_file(alloc: Global, depth: usize) -> Result<String, AllocError> {
    let mut file = String::from_str(alloc, "{\"a\":")?;
    for _ in 0..depth {
        file.push_str("[")?;
    }
    for _ in 0..depth {
        file.push_str("]")?;
    }
    file.push_str("}")?;
    Ok(file)
}

#[test]
fn lists_that_nest_too_deep_are_refused(rt: HostRuntime) -> Result<(), Fail> {
    let file = nested_file(rt.alloc(), 100)?;
    assert_eq!(rt; refusal(rt.alloc(), file.as_bytes()), None);
    let file = nested_file(rt.alloc(), 200)?;
    check_refusal(&rt, rt.alloc(), file.as_bytes(), TableFault::NotJson);
    Ok(())
}

/// Some names of HTML, and some that it has not.
static NAMES_OF_HTML: [(&str, Option<&str>); 17] = [
    ("AElig", Some("\u{C6}")),
    ("AMP", Some("&")),
    ("Afr", Some("\u{1D504}")),
    ("ClockwiseContourIntegral", Some("\u{2232}")),
    ("NewLine", Some("\n")),
    ("NotEqualTilde", Some("\u{2242}\u{338}")),
    ("QUOT", Some("\"")),
    ("Tab", Some("\t")),
    ("bsol", Some("\\")),
    ("num", Some("#")),
    ("sup", Some("\u{2283}")),
    ("sup1", Some("\u{B9}")),
    ("zwnj", Some("\u{200C}")),
    ("aelig;", None),
    ("amP", None),
    ("MadeUpEntity", None),
    ("", None),
];

/// How many names have a text, as they are printed.
fn count_of_names(alloc: Global, entities: &Entities) -> Result<usize, AllocError> {
    let shown = printed(alloc, entities, false)?;
    Ok(shown.matches("\": \"").count())
}

#[test]
fn names_of_html(rt: HostRuntime) -> Result<(), Fail> {
    let entities = Entities::html(rt.alloc())?;
    check_names(&rt, &entities, &NAMES_OF_HTML, "HTML");
    assert_eq!(rt; count_of_names(rt.alloc(), &entities)?, 2125);
    Ok(())
}

fn reason<E: Error>(alloc: Global, fault: &E) -> Result<String, AllocError> {
    format!(in alloc; "{fault}")
}

static REASONS: [(TableFault, &str); 3] = [
    (TableFault::NotJson, "the entity file is not a JSON object"),
    (
        TableFault::BadEntry,
        "an entry of the entity file has a bad name or no characters",
    ),
    (TableFault::NoMemory, "no memory"),
];

#[test]
fn a_refused_file_says_why(rt: HostRuntime) -> Result<(), Fail> {
    for (fault, want) in &REASONS {
        assert_eq!(rt; reason(rt.alloc(), fault)?.as_str(), *want);
    }
    Ok(())
}

/// Hands a value on as one that may go to another thread, and be seen by more than one.
fn shared<T: Send + Sync>(value: T) -> T {
    value
}

#[test]
fn entities_may_go_to_another_thread(rt: HostRuntime) -> Result<(), Fail> {
    let entities = shared(Entities::builtin(rt.alloc())?);
    assert_eq!(rt; entities.get("amp"), Some("&"));
    Ok(())
}
