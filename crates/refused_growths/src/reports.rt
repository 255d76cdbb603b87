//! The lines that say what a call did.

use std::alloc::AllocError;

/// Says that a growth was refused inside a call, and whether all is as before it.
pub fn say_refused(said: &mut String, as_before: bool) -> Result<(), AllocError> {
    said.push_str(if as_before {
        "refused, and all is as before\n"
    } else {
        "refused, and not all is as before\n"
    })
}

/// Says what a call of this name answered.
pub fn say(said: &mut String, call: &str, answer: &str) -> Result<(), AllocError> {
    write!(said, "{call}: {answer}\n")
}

/// Says that a call of this name did not answer as it does with memory.
pub fn say_failed(said: &mut String, call: &str) -> Result<(), AllocError> {
    say(said, call, "FAILED")
}
