//! What is said of a refusal.

use mdview::EditFault;
use std::alloc::{AllocError, Global};
use std::test::Fail;

fn reason(alloc: Global, fault: &EditFault) -> Result<String, AllocError> {
    format!(in alloc; "{fault}")
}

static REASONS: [(EditFault, &str); 8] = [
    (
        EditFault::OutOfRange { lines: 3 },
        "the edit reaches past the text, which has 3 lines",
    ),
    (
        EditFault::BreakInLine { index: 4 },
        "the added line 4 holds a line ending",
    ),
    (
        EditFault::TooManyLines,
        "the text is refused: it has more than 1,000,000 lines",
    ),
    (
        EditFault::TooLarge,
        "the text is refused: it has more than 16,777,216 bytes",
    ),
    (
        EditFault::NestedTooDeep { line: 5 },
        "the text is refused: a container in line 5 lies in too many others",
    ),
    (
        EditFault::InlineTooDeep { line: 6 },
        "the text is refused: a span of the block in line 6 lies in too many others",
    ),
    (EditFault::NoMemory, "no memory"),
    (
        EditFault::NotDefinitions { line: 7 },
        "the prelude is refused: what begins in its line 7 is more than definitions",
    ),
];

#[test]
fn a_refusal_says_why(rt: HostRuntime) -> Result<(), Fail> {
    for (fault, want) in &REASONS {
        assert_eq!(rt; reason(rt.alloc(), fault)?.as_str(), *want);
    }
    Ok(())
}
