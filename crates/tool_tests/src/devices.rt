//! What the engines write and how they end where a device fails at its first call, its second, and so on.

mod pages;
mod scripts;
mod tables;

use crate::options::SOFT;
use crate::runs::{Devices, Engine, Run, WIDE, run_of};
use mdtool::Options;
use std::alloc::{AllocError, Global};

/// Raw HTML as it stands, so that all that is read is written.
const OPTIONS: Options = Options {
    unsafe_html: true,
    ..SOFT
};

/// What an engine does with a text or a script where all comes and goes a byte a call, and a device fails.
fn by_bytes(
    alloc: Global,
    engine: Engine,
    text: &str,
    feed_fails: Option<u64>,
    out_fails: Option<u64>,
) -> Result<Run, AllocError> {
    let devices = Devices {
        step: 1,
        feed_fails,
        out_fails,
    };
    run_of(alloc, engine, text.as_bytes(), devices, OPTIONS)
}

/// What it does in wide calls, where no device fails.
fn at_once(alloc: Global, engine: Engine, text: &str) -> Result<Run, AllocError> {
    run_of(alloc, engine, text.as_bytes(), WIDE, OPTIONS)
}
