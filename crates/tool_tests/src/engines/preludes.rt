//! Preludes: the worked script, those that are handed in, and their refusals.

ghost use Rattle.std.specs.Prelude.{◌<◌};

use super::{check, check_all};
use crate::options::SOFT;
use crate::runs::{Devices, Engine, Run, SOUND, WIDE, run_beside, run_of};
use mdtext::Entities;
use mdtool::{MemoryFeed, ToolFault, prelude_from};
use std::alloc::Global;
use std::test::Fail;

static SET: [(&str, &str, &str); 2] = [
    (
        "edit 0 0 1\n[foo]\nprelude 1\n[foo]: /p\nedit 1 0 2\n\n[foo]: /a\nprelude 0\nprelude 1\nx\n",
        "ok 0 0 1 0\npiece 0 13\n<p>[foo]</p>\nok 0 0 0 1\npiece 0 28\n<p><a href=\"/p\">foo</a></p>\nok 0 1 2 0\npiece 0 28\n<p><a href=\"/a\">foo</a></p>\npiece 1 0\nok 0 0 0 0\nrefused NotDefinitions 0\n",
        "Ok(())",
    ),
    // The text's definition goes, and the label leads where the prelude says; a refused prelude is not held.
    (
        "prelude 2\n[a]: /p\n[a]: /q\nedit 0 0 3\n[a]\n\n[a]: /t\nprelude 2\n[a]: /r\n# b\nedit 2 1 0\nprelude 1\n[b]: /p\nhtml\n",
        "ok 0 0 0 0\nok 0 0 2 0\npiece 0 26\n<p><a href=\"/t\">a</a></p>\npiece 1 0\nrefused NotDefinitions 1\nok 0 2 1 0\npiece 0 26\n<p><a href=\"/p\">a</a></p>\nok 0 0 0 1\npiece 0 11\n<p>[a]</p>\nhtml 11\n<p>[a]</p>\n",
        "Ok(())",
    ),
];

#[test]
fn a_script_sets_preludes(rt: HostRuntime) -> Result<(), Fail> {
    check_all(&rt, rt.alloc(), &SET)?;
    Ok(())
}

static NO_PRELUDES: [&str; 7] = [
    "prelude\n",
    "prelude \n",
    "prelude  1\n",
    "prelude 1 \n",
    "prelude 1000000000\n",
    "prelude -1\n",
    "Prelude 0\n",
];

#[test]
fn a_script_ends_inside_a_prelude(rt: HostRuntime) -> Result<(), Fail> {
    let alloc = rt.alloc();
    check(&rt, alloc, "prelude 2\n[a]: /u\n", "", "Err(Truncated(1))")?;
    for &script in &NO_PRELUDES {
        check(&rt, alloc, script, "", "Err(BadCommand(1))")?;
    }
    Ok(())
}

static REFUSED: [(&str, &str); 5] = [
    ("prelude 2\nx\n[a]\r: /u\n", "refused BreakInLine 1\n"),
    (
        "prelude 3\n[a]: /u\n\n    x\n",
        "refused NotDefinitions 2\n",
    ),
    ("prelude 2\n[a]: /u\nx\n", "refused NotDefinitions 0\n"),
    // The line with a container too many counts, though another block stands above it.
    (
        "prelude 3\nx\n\n>>>>>>>>>>>>>>>>>>>>>>>>>>>>>>>>>>>>>>>>>>>>>>>>>>>>>>>>>>>>>>>>>\n",
        "refused NotDefinitions 2\n",
    ),
    (
        "prelude 2\n\n>>>>>>>>>>>>>>>>>>>>>>>>>>>>>>>>>>>>>>>>>>>>>>>>>>>>>>>>>>>>>>>>\n",
        "refused NotDefinitions 1\n",
    ),
];

/// Each refusal of a prelude, and which of two comes first.
#[test]
fn a_prelude_is_refused_by_name(rt: HostRuntime) -> Result<(), Fail> {
    let alloc = rt.alloc();
    for &(script, want) in &REFUSED {
        check(&rt, alloc, script, want, "Ok(())")?;
    }
    Ok(())
}

/// A text that a label of the prelude makes too deep is refused, and the prelude is not held.
#[test]
fn a_prelude_makes_no_text_too_deep(rt: HostRuntime) -> Result<(), Fail> {
    let alloc = rt.alloc();
    let mut script = String::from_str(alloc, "edit 0 0 3\nx\n\n")?;
    script.push_str(&"*a ".repeat(alloc, 64)?)?;
    script.push_str("[k]")?;
    script.push_str(&" a*".repeat(alloc, 64)?)?;
    script.push_str("\nprelude 1\n[k]: /u\nprelude 1\n[m]: /u\nedit 0 1 1\n[m]\n")?;
    let run = run_of(alloc, Engine::Serve, script.as_bytes(), WIDE, SOFT)?;
    assert!(rt; run.ended("Ok(())"));
    let want =
        "refused InlineTooDeep 2\nok 0 0 0 0\nok 0 1 1 0\npiece 0 26\n<p><a href=\"/u\">m</a></p>\n";
    assert!(rt; run.ends_with(want));
    Ok(())
}

/// The lines of a prelude's file.
fn lines_in(alloc: Global, bytes: &[u8]) -> Result<Vec<String>, ToolFault> {
    prelude_from(alloc, &mut MemoryFeed::new(bytes, 7, None))
}

#[test]
fn reads_the_lines_of_a_prelude(rt: HostRuntime) -> Result<(), Fail> {
    let alloc = rt.alloc();
    let lines = lines_in(alloc, b"a\nb").map_err(|_| "not read")?;
    assert_eq!(rt; lines.len(), 2);
    assert_eq!(rt; lines[0].as_str(), "a");
    assert_eq!(rt; lines[1].as_str(), "b");
    assert!(rt; lines_in(alloc, b"").map_err(|_| "not read")?.is_empty());
    let mut feed = MemoryFeed::new(b"[a]: /u\n".as_slice(), 7, Some(1));
    assert!(rt; matches!(prelude_from(alloc, &mut feed), Err(ToolFault::Read)));
    Ok(())
}

/// What an engine does beside a prelude.
fn beside(
    alloc: Global,
    engine: Engine,
    prelude: &[u8],
    text: &[u8],
    devices: Devices,
) -> Result<Run, Fail>
    requires { 0 < devices.step }
{
    let lines = lines_in(alloc, prelude).map_err(|_| "not read")?;
    let entities = Entities::builtin(alloc)?;
    Ok(run_beside(alloc, engine, entities, &lines, text, devices, SOFT)?)
}

static BESIDE: [(&str, &str, &str, &str); 3] = [
    (
        "[a]: /p\n[b]: /q",
        "[a] [b]\n\n[a]: /t\n",
        "<p><a href=\"/t\">a</a> <a href=\"/q\">b</a></p>\n",
        "Ok(())",
    ),
    ("", "[a]", "<p>[a]</p>\n", "Ok(())"),
    (
        "[a]: /p\n\nb\n",
        ">>>>>>>>>>>>>>>>>>>>>>>>>>>>>>>>>>>>>>>>>>>>>>>>>>>>>>>>>>>>>>>>>",
        "",
        "Err(Refused(NotDefinitions { line: 2 }))",
    ),
];

#[test]
fn a_text_stands_beside_its_prelude(rt: HostRuntime) -> Result<(), Fail> {
    let alloc = rt.alloc();
    for &(prelude, text, want, want_end) in &BESIDE {
        let run = beside(
            alloc,
            Engine::Convert,
            prelude.as_bytes(),
            text.as_bytes(),
            SOUND,
        )?;
        assert!(rt; run.wrote(want), "{text}");
        assert!(rt; run.ended(want_end), "{text}");
    }
    Ok(())
}

/// A refused prelude ends `serve` before anything is read: a feed that fails at once is not asked.
#[test]
fn a_refused_prelude_ends_a_script(rt: HostRuntime) -> Result<(), Fail> {
    let alloc = rt.alloc();
    let devices = Devices {
        feed_fails: Some(0),
        ..SOUND
    };
    let run = beside(alloc, Engine::Serve, b"# a", b"html\n", devices)?;
    assert!(rt; run.ended("Err(Refused(NotDefinitions { line: 0 }))"));
    assert!(rt; run.wrote(""));
    Ok(())
}
