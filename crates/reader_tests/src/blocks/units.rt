//! Texts with the units that they are, by the examples and rules of CommonMark 0.31.2 and GFM 0.29.

ghost use Rattle.std.specs.Prelude.{◌≤◌};

use super::calls::{LIMIT, finish, new_reader, read_line};
use super::readings::{End, Step, found_in, quoted, run};
use super::shown::show;
use mdblock::{BlockFault, Definition, Found, Join, Reader, Unit};
use mdtext::{Entities, Tally};
use std::alloc::{AllocError, Global};
use std::error::Error;
use std::process::Abort;
use std::test::Fail;

fn name(fault: BlockFault) -> &'static str {
    match fault {
        BlockFault::NestedTooDeep => "NestedTooDeep",
        BlockFault::NoMemory => "NoMemory",
        BlockFault::Failed => "Failed",
    }
}

/// What is told of a text whose lines end at LF.
#[derive(Clone, Copy)]
enum Told {
    /// Its units.
    Units,
    /// Which of its lines begin a later item of a top-level list, as `x`, and which don't, as `.`.
    Marks,
    /// The later items of each unit, as the number of its lines before each and that of the inline texts; units are parted by `|`.
    Joins,
}

fn show_joins(found: &Option<Found>, out: &mut String) -> Result<(), AllocError> {
    let Some(found) = found else {
        return Ok(());
    };
    for join in found.joins() {
        write!(out, "{}/{} ", join.line, join.texts)?;
    }
    out.push_str("|")
}

fn tell_found(told: Told, found: &Option<Found>, out: &mut String) -> Result<(), AllocError> {
    match told {
        Told::Units => show(found, out),
        Told::Marks => Ok(()),
        Told::Joins => show_joins(found, out),
    }
}

/// Appends what is told of the unit that was handed out, or the name of the fault. Answers whether there was none.
fn tell_outcome(
    told: Told,
    outcome: Result<Option<Found>, BlockFault>,
    out: &mut String,
) -> Result<bool, AllocError> {
    match outcome {
        Ok(found) => {
            tell_found(told, &found, out)?;
            Ok(true)
        }
        Err(fault) => {
            out.push_str(name(fault))?;
            Ok(false)
        }
    }
}

fn mark(told: Told, joined: bool) -> &'static str {
    match told {
        Told::Marks => if joined { "x" } else { "." },
        _ => "",
    }
}

/// Appends what is told of the lines of a text, up to a fault. Answers whether there was none.
fn tell_lines(
    told: Told,
    reader: &mut Reader<'_>,
    text: &str,
    out: &mut String,
) -> Result<bool, AllocError> {
    let mut count = Tally::new();
    for line in text.lines() {
        if !tell_outcome(told, read_line(reader, line, &mut count), out)? {
            return Ok(false);
        }
        out.push_str(mark(told, reader.joined()))?;
    }
    Ok(true)
}

fn tell_all(
    told: Told,
    mut reader: Reader<'_>,
    text: &str,
    out: &mut String,
) -> Result<(), AllocError> {
    if tell_lines(told, &mut reader, text, out)? {
        tell_outcome(told, finish(reader), out)?;
    }
    Ok(())
}

/// What is told of a text, up to the name of a fault.
fn tell(alloc: Global, told: Told, text: &str, limit: usize) -> Result<String, AllocError>
    requires some { 1 ≤ limit }
    requires few { limit ≤ 256 }
{
    let entities = Entities::builtin(alloc)?;
    let mut out = String::new(alloc);
    tell_all(told, new_reader(alloc, &entities, limit), text, &mut out)?;
    Ok(out)
}

fn check(
    rt: &impl Abort,
    alloc: Global,
    told: Told,
    text: &str,
    want: &str,
) -> Result<(), AllocError> {
    let out = tell(alloc, told, text, LIMIT)?;
    assert_eq!(rt; out.as_str(), want);
    Ok(())
}

/// Texts, each with what is told of it.
fn check_all(
    rt: &impl Abort,
    alloc: Global,
    told: Told,
    rows: &[(&str, &str)],
) -> Result<(), Fail> {
    for &(text, want) in rows {
        check(rt, alloc, told, text, want)?;
    }
    Ok(())
}

/// Texts of leaves.
static LEAVES: [(&str, &str); 10] = [
    ("", ""),
    ("\tfoo\tbaz\t\tbim\n", "code:(foo\tbaz\t\tbim\n);\n"),
    ("[foo]: /url\n---\n", "[foo /url ]\nhr;\n"),
    ("[foo]: /url\n===\n[foo]\n", "[foo /url ]p(===\n[foo]);\n"),
    (
        "[foo]: /url\n\"title\" ok\n",
        "[foo /url ]p(\"title\" ok);\n",
    ),
    ("foo  \nbar\n---\n", "h2(foo  \nbar);\n"),
    ("``` a&amp;b c\nd\n```\ne", "code:a&b c(d\n);\np(e);\n"),
    (
        "~~~~    ruby  startline=3 $%@#$\nend\n~~~~~~~\n",
        "code:ruby  startline=3 $%@#$(end\n);\n",
    ),
    ("<!-- a\n\nb -->\nc", "html(<!-- a\n\nb -->);\np(c);\n"),
    ("<div>\na\n\nb", "html(<div>\na);\np(b);\n"),
];

#[test]
fn leaves_are_read(rt: HostRuntime) -> Result<(), Fail> {
    check_all(&rt, rt.alloc(), Told::Units, &LEAVES)
}

/// Texts of containers.
static CONTAINERS: [(&str, &str); 10] = [
    (">\t\tfoo\n", "quote{code:(  foo\n);};\n"),
    ("- foo\n\n\tbar\n", "loose{-p(foo);p(bar);};\n"),
    ("- foo\n-\n- bar\n", "tight{-p(foo);--p(bar);};\n"),
    ("> bar\nbaz\n> foo\n", "quote{p(bar\nbaz\nfoo);};\n"),
    (
        "* a\n  > b\n  >\n* c\n",
        "tight{-p(a);quote{p(b);};-p(c);};\n",
    ),
    ("3. a\n4. b\n", "tight{-p(a);-p(b);};\n"),
    ("> foo\n---\n", "quote{p(foo);};\nhr;\n"),
    ("> foo\nbar\n===\n", "quote{p(foo\nbar\n===);};\n"),
    ("> - foo\n    ===\n", "quote{tight{-p(foo\n===);};};\n"),
    (
        "- a\n- ```\n  b\n\n\n  ```\n- c\n",
        "tight{-p(a);-code:(b\n\n\n);-p(c);};\n",
    ),
];

#[test]
fn containers_are_read(rt: HostRuntime) -> Result<(), Fail> {
    check_all(&rt, rt.alloc(), Told::Units, &CONTAINERS)
}

/// Texts of tables and task items.
static TABLES: [(&str, &str); 6] = [
    (
        "| f\\|oo  |\n| ------ |\n| b `\\|` az |\n",
        "table(f|oo)/(b `|` az);\n",
    ),
    ("| abc | def |\n| --- |\n", "p(| abc | def |\n| --- |);\n"),
    (
        "| a | b |\n| :-- | --: |\n| 1 |\n| 2 | 3 | 4 |\n",
        "table(a)(b)/(1)()/(2)(3);\n",
    ),
    ("foo\n| a |\n| - |\n| b |\n", "p(foo);table(a)/(b);\n"),
    ("- | a |\n  | - |\n", "tight{-table(a);};\n"),
    ("- [ ] foo\n- [x] bar\n", "tight{-task(foo);-done(bar);};\n"),
];

#[test]
fn tables_and_tasks_are_read(rt: HostRuntime) -> Result<(), Fail> {
    check_all(&rt, rt.alloc(), Told::Units, &TABLES)
}

/// What a line of so many markers of block quotes is read as, under a limit.
fn nested(alloc: Global, quotes: usize, limit: usize) -> Result<String, AllocError>
    requires some { 1 ≤ limit }
    requires few { limit ≤ 256 }
{
    let line = quoted(alloc, quotes)?;
    tell(alloc, Told::Units, &line, limit)
}

fn is_read(alloc: Global, quotes: usize, limit: usize) -> Result<bool, AllocError>
    requires some { 1 ≤ limit }
    requires few { limit ≤ 256 }
{
    Ok(nested(alloc, quotes, limit)?.contains("p(x)"))
}

fn is_too_deep(alloc: Global, quotes: usize, limit: usize) -> Result<bool, AllocError>
    requires some { 1 ≤ limit }
    requires few { limit ≤ 256 }
{
    Ok(nested(alloc, quotes, limit)?.as_str() == "NestedTooDeep")
}

#[test]
fn containers_are_limited(rt: HostRuntime) -> Result<(), Fail> {
    assert!(rt; is_read(rt.alloc(), 64, LIMIT)?);
    assert!(rt; is_too_deep(rt.alloc(), 65, LIMIT)?);
    assert!(rt; is_too_deep(rt.alloc(), 1000, LIMIT)?);
    Ok(())
}

/// Texts, each with its units where one container may be open.
static LIMITED: [(&str, &str); 3] = [
    ("> x", "quote{p(x);};\n"),
    ("> > x", "NestedTooDeep"),
    ("- > x", "NestedTooDeep"),
];

fn are_units(alloc: Global, text: &str, limit: usize, want: &str) -> Result<bool, AllocError>
    requires some { 1 ≤ limit }
    requires few { limit ≤ 256 }
{
    Ok(tell(alloc, Told::Units, text, limit)?.as_str() == want)
}

#[test]
fn the_limit_is_handed_in(rt: HostRuntime) -> Result<(), Fail> {
    for &(text, want) in &LIMITED {
        assert!(rt; are_units(rt.alloc(), text, 1, want)?, "{text:?}");
    }
    assert!(rt; are_units(rt.alloc(), "> - x", 2, "quote{tight{-p(x);};};\n")?);
    assert!(rt; is_read(rt.alloc(), 256, 256)?);
    assert!(rt; is_too_deep(rt.alloc(), 257, 256)?);
    Ok(())
}

static A_FAULT: [Step; 8] = [
    Step::State {
        fed: 0,
        open_at: None,
    },
    Step::Read { line: "" },
    Step::Read { line: "a" },
    Step::State {
        fed: 2,
        open_at: Some(1),
    },
    Step::RefuseQuotes {
        quotes: 65,
        fault: BlockFault::NestedTooDeep,
    },
    Step::State {
        fed: 2,
        open_at: None,
    },
    Step::Refuse {
        line: "b",
        fault: BlockFault::Failed,
    },
    Step::Counted { lines: 4 },
];

#[test]
fn a_fault_stays(rt: HostRuntime) -> Result<(), Fail> {
    run(&rt, rt.alloc(), &A_FAULT, End::Fault(BlockFault::Failed))
}

static TWO_UNITS: [Step; 5] = [
    Step::Read { line: "" },
    Step::Read { line: "- a" },
    Step::Read { line: "" },
    Step::Hand {
        line: "b",
        begin: 1,
        lines: 2,
    },
    Step::State {
        fed: 4,
        open_at: Some(3),
    },
];

#[test]
fn units_say_where_they_begin(rt: HostRuntime) -> Result<(), Fail> {
    run(
        &rt,
        rt.alloc(),
        &TWO_UNITS,
        End::Unit { begin: 3, lines: 1 },
    )
}

/// Texts, with which of their lines begin a later item.
static LATER: [(&str, &str); 6] = [
    ("- a\n- b\n* c\n* d", ".x.x"),
    (
        "- a\n\n- b\n  - c\n  - d\nlazy\n- e\n\np\n- f",
        "..x...x...",
    ),
    ("1. a\n3. b\n1) c\n7) d", ".x.x"),
    ("- ```\n  - a\n- b\n```\n- c\n```\n- d\n- e", "..x....x"),
    ("> - a\n> - b\n- c\n- # d\n- e", "...xx"),
    ("-\n\n- a\n- - -\n- b", "..x.."),
];

static TWO_ITEMS: [Step; 6] = [
    Step::Joined { joined: false },
    Step::Read { line: "- a" },
    Step::Read { line: "- b" },
    Step::Joined { joined: true },
    Step::RefuseQuotes {
        quotes: 65,
        fault: BlockFault::NestedTooDeep,
    },
    Step::Joined { joined: false },
];

#[test]
fn later_items_are_told(rt: HostRuntime) -> Result<(), Fail> {
    check_all(&rt, rt.alloc(), Told::Marks, &LATER)?;
    run(&rt, rt.alloc(), &TWO_ITEMS, End::Open)
}

/// Texts, with the joins of their units.
static JOINS: [(&str, &str); 6] = [
    ("- a\n- b\n* c\n* d", "1/1 |1/1 |"),
    ("# h\n\nx\n\n3. a\n9. b\n\n2. c\n\ny\n1) z", "||1/1 3/2 |||"),
    ("- a\n\n  b\n- | c | d |\n  | - | - |\n- e", "3/2 5/4 |"),
    ("-\n- ```\n  x\n  ```\n- [a]: /u\n- b", "1/0 4/0 5/0 |"),
    ("- a\n  - b\n  - c\n- > d\n  > - e\n- f", "3/3 5/5 |"),
    ("> - a\n> - b\n\n- c\nlazy\n- d", "|2/1 |"),
];

#[test]
fn units_have_their_later_items(rt: HostRuntime) -> Result<(), Fail> {
    check_all(&rt, rt.alloc(), Told::Joins, &JOINS)
}

fn reason<E: Error>(alloc: Global, fault: &E) -> Result<String, AllocError> {
    format!(in alloc; "{fault}")
}

/// Each fault, with its words.
static FAULTS: [(BlockFault, &str); 3] = [
    (
        BlockFault::NestedTooDeep,
        "a container of the line lies in too many others",
    ),
    (BlockFault::NoMemory, "no memory"),
    (BlockFault::Failed, "an earlier line was not read"),
];

#[test]
fn a_fault_says_why(rt: HostRuntime) -> Result<(), Fail> {
    for &(fault, want) in &FAULTS {
        assert_eq!(rt; reason(rt.alloc(), &fault)?.as_str(), want);
    }
    Ok(())
}

/// The value, of a type whose values may go to other threads and be looked at from several at once.
fn across_threads<T: Send + Sync>(value: T) -> T {
    value
}

#[test]
fn found_units_may_cross_threads(rt: HostRuntime) -> Result<(), Fail> {
    let found = across_threads(found_in(rt.alloc(), &["- a"])?);
    assert!(rt; found.is_some_and(|found| found.lines() == 1));
    Ok(())
}

fn has_parts(unit: &Unit) -> bool {
    unit.blocks().len() == 1 && unit.texts().len() == 2 && defines(unit.definitions(), "a")
}

/// Whether there is one definition, and of this label.
fn defines(definitions: &[Definition], label: &str) -> bool {
    match definitions {
        [definition] => definition.label.as_str() == label,
        _ => false,
    }
}

/// Whether there is one join, at this line and this inline text.
fn has_join(joins: &[Join], line: usize, texts: usize) -> bool {
    match joins {
        [join] => join.line == line && join.texts == texts,
        _ => false,
    }
}

#[test]
fn parts_are_read(rt: HostRuntime) -> Result<(), Fail> {
    let found = found_in(rt.alloc(), &["", "- [A]: /u", "  t", "- b"])?.ok_or("no unit")?;
    assert!(rt; found.begin() == 1 && found.lines() == 3);
    assert!(rt; has_parts(found.unit()));
    assert!(rt; has_join(found.joins(), 2, 1));
    Ok(())
}
