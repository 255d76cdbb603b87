//! Whole texts.

use super::{at_once, by_bytes};
use crate::runs::Engine;
use std::test::Fail;

/// Links, of which one has no definition; and a text with each kind of block and span.
const PAGES: [&str; 2] = [
    "[foo][bar][baz]\n\n[baz]: /url1\n[foo]: /url2\n",
    "# a\r\nb\n===\r> 1. c\n>    d  \ne\\\nf\n\n- [ ] g\n- [x] h\n\n\ti\n```j\nk\n```\n<div>\n\n| l | m |\n|:-:|--:|\n| `n` | \\| |\n***\n*o* __p__ ~q~ [r](s \"t\") ![u][v] <w:x> <y z> &amp;\u{E4}\0\n\n[v]: <1>\n'2'\n",
];

/// A byte comes with each call, and the call behind the last one finds the end: where any of them fails, nothing is written.
#[test]
fn a_page_ends_at_each_feed_fault(rt: HostRuntime) -> Result<(), Fail> {
    let alloc = rt.alloc();
    for page in PAGES {
        let whole = at_once(alloc, Engine::Convert, page)?;
        for calls in 0..=page.len() as u64 {
            let run = by_bytes(alloc, Engine::Convert, page, Some(calls), None)?;
            assert!(rt; run.ended("Err(Read)"), "{calls}");
            assert!(rt; run.written.is_empty(), "{calls}");
            assert_eq!(rt; run.flushes, 0, "{calls}");
        }
        let run = by_bytes(alloc, Engine::Convert, page, None, None)?;
        assert!(rt; run.ended("Ok(())"));
        assert!(rt; whole.ended("Ok(())"));
        assert_eq!(rt; run.written.as_slice(), whole.written.as_slice());
        assert_eq!(rt; run.flushes, 1);
    }
    Ok(())
}

/// A byte goes with each call, and a flush comes behind the last one: where a call fails, the bytes of those before it are written.
#[test]
fn a_page_ends_at_each_out_fault(rt: HostRuntime) -> Result<(), Fail> {
    let alloc = rt.alloc();
    for page in PAGES {
        let whole = at_once(alloc, Engine::Convert, page)?;
        for calls in 0..=whole.written.len() as u64 {
            let run = by_bytes(alloc, Engine::Convert, page, None, Some(calls))?;
            assert!(rt; run.ended("Err(Write)"), "{calls}");
            assert!(rt; whole.written.starts_with(&run.written), "{calls}");
            assert_eq!(rt; run.written.len() as u64, calls);
            assert_eq!(rt; run.flushes, 0, "{calls}");
        }
    }
    Ok(())
}
