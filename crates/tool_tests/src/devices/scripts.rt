//! Scripts.

use super::{at_once, by_bytes};
use crate::runs::Engine;
use std::test::Fail;

/// A definition that is changed; and edits of each kind of block and span, with a prelude, the whole HTML and refusals between them.
const SCRIPTS: [&str; 2] = [
    "edit 0 0 5\n[foo]\n\nx\n\n[foo]: /a\nedit 4 1 1\n[foo]: /b\n",
    "edit 0 0 9\n# a\nb\n===\n> 1. c\n>    d  \ne\\\n\n- [ ] g\n- [x] h\nhtml\nedit 1 2 6\n\ti\n```j\nk\n```\n<div>\n\nedit 6 0 4\n| l | m |\n|:-:|--:|\n| `n` | \\| |\n***\nprelude 1\n[v]: <1> '2'\nedit 99 0 0\nedit 10 1 2\n*o* __p__ ~q~ [r](s \"t\") ![u][v]\n<w:x> <y z> &amp;\u{E4}\0\nprelude 1\n# no definition\nedit 0 1 1\na\rb\nprelude 0\nedit 3 4 0\nhtml\n",
];

/// A byte comes with each call: where one fails, the replies to the commands in the lines before it are written, and each is flushed.
#[test]
fn a_script_ends_at_each_feed_fault(rt: HostRuntime) -> Result<(), Fail> {
    let alloc = rt.alloc();
    for script in SCRIPTS {
        let mut calls: u64 = 0;
        let mut read = String::new(alloc);
        for line in script.lines() {
            let want = at_once(alloc, Engine::Serve, &read)?;
            for _ in 0..=line.len() {
                let run = by_bytes(alloc, Engine::Serve, script, Some(calls), None)?;
                assert!(rt; run.ended("Err(Read)"), "{calls}");
                assert_eq!(rt; run.written.as_slice(), want.written.as_slice(), "{calls}");
                assert_eq!(rt; run.flushes, want.flushes, "{calls}");
                calls = calls.saturating_add(1);
            }
            read.push_str(line)?;
            read.push_str("\n")?;
        }
        assert_eq!(rt; read.as_str(), script);
        let run = by_bytes(alloc, Engine::Serve, script, Some(calls), None)?;
        assert!(rt; run.ended("Err(Read)"));
        let whole = at_once(alloc, Engine::Serve, script)?;
        assert!(rt; whole.ended("Ok(())"));
        assert_eq!(rt; run.written.as_slice(), whole.written.as_slice());
    }
    Ok(())
}

/// A byte goes with each call, and a flush comes behind each reply: where a call fails, the bytes of those before it are written.
#[test]
fn a_script_ends_at_each_out_fault(rt: HostRuntime) -> Result<(), Fail> {
    let alloc = rt.alloc();
    for script in SCRIPTS {
        let whole = at_once(alloc, Engine::Serve, script)?;
        for calls in 0..(whole.written.len() as u64).saturating_add(whole.flushes) {
            let run = by_bytes(alloc, Engine::Serve, script, None, Some(calls))?;
            assert!(rt; run.ended("Err(Write)"), "{calls}");
            assert!(rt; whole.written.starts_with(&run.written), "{calls}");
            assert_eq!(rt;
                (run.written.len() as u64).saturating_add(run.flushes),
                calls
            );
        }
        let run = by_bytes(alloc, Engine::Serve, script, None, None)?;
        assert!(rt; run.ended("Ok(())"));
        assert_eq!(rt; run.written.as_slice(), whole.written.as_slice());
        assert_eq!(rt; run.flushes, whole.flushes);
    }
    Ok(())
}
