//! Runs of the engines over memory: what is written, how the run ends, and how often it flushed.
//!
//! An engine is called here alone, and so are words read: such a call is dear to prove.

ghost use Rattle.std.specs.Prelude.{◌-◌, ◌^◌, ◌<◌};
ghost use Rattle.htmlspec.specs.Limits.{HasLimits};

use mdtext::Entities;
use mdtool::{
    Feed, MemoryFeed, MemoryOut, Options, Out, ToolFault, WordFault, Words, convert, read_words,
    serve,
};
use std::alloc::{AllocError, Global};

/// How many bytes a call moves at most, and which call of a device fails.
#[derive(Clone, Copy)]
pub(crate) struct Devices {
    pub(crate) step: usize,
    pub(crate) feed_fails: Option<u64>,
    pub(crate) out_fails: Option<u64>,
}

/// Devices of which no call fails.
pub(crate) const SOUND: Devices = Devices {
    step: 7,
    feed_fails: None,
    out_fails: None,
};

/// Devices for long texts, of which no call fails.
pub(crate) const WIDE: Devices = Devices {
    step: 4096,
    feed_fails: None,
    out_fails: None,
};

/// What a run wrote, how it ended, and how often it flushed.
#[derive(Drop)]
pub(crate) struct Run {
    pub(crate) written: Vec<u8>,
    pub(crate) end: String,
    pub(crate) flushes: u64,
}

impl Run {
    fn of(alloc: Global, out: &MemoryOut, end: Result<(), ToolFault>) -> Result<Run, AllocError> {
        Ok(Run {
            written: out.bytes().to_vec(alloc)?,
            end: format!(in alloc; "{end:?}")?,
            flushes: out.flushes(),
        })
    }

    /// Whether it wrote this.
    pub(crate) fn wrote(&self, want: &str) -> bool {
        self.written.as_slice() == want.as_bytes()
    }

    /// Whether what it wrote is a beginning of this.
    pub(crate) fn began(&self, want: &str) -> bool {
        want.as_bytes().starts_with(&self.written)
    }

    /// Whether what it wrote ends with this.
    pub(crate) fn ends_with(&self, want: &str) -> bool {
        self.written.ends_with(want.as_bytes())
    }

    /// Whether it ended so.
    pub(crate) fn ended(&self, want: &str) -> bool {
        self.end.as_str() == want
    }
}

/// An engine that reads a text or a script.
#[derive(Clone, Copy)]
pub(crate) enum Engine {
    /// `convert`, of a text.
    Convert,
    /// `serve`, of a script.
    Serve,
}

/// How an engine ends.
fn end_of<R: Feed, W: Out>(
    alloc: Global,
    engine: Engine,
    feed: &mut R,
    out: &mut W,
    entities: Entities,
    options: Options,
    prelude: &[String],
) -> Result<(), ToolFault>
    requires limits { HasLimits options }
    requires feed { R.failures feed.old < 2 ^ 64 - 1 }
    requires out { W.failures out.old < 2 ^ 64 - 1 }
{
    match engine {
        Engine::Convert => convert(alloc, feed, out, entities, options, prelude),
        Engine::Serve => serve(alloc, feed, out, entities, options, prelude),
    }
}

/// What an engine does beside the definitions of a prelude.
pub(crate) fn run_beside(
    alloc: Global,
    engine: Engine,
    entities: Entities,
    prelude: &[String],
    text: &[u8],
    devices: Devices,
    options: Options,
) -> Result<Run, AllocError>
    requires step { 0 < devices.step }
    requires limits { HasLimits options }
{
    let mut feed = MemoryFeed::new(text, devices.step, devices.feed_fails);
    let mut out = MemoryOut::new(alloc, devices.step, devices.out_fails);
    let end = end_of(
        alloc, engine, &mut feed, &mut out, entities, options, prelude,
    );
    Run::of(alloc, &out, end)
}

/// What an engine does with the usual entities and no prelude.
pub(crate) fn run_of(
    alloc: Global,
    engine: Engine,
    text: &[u8],
    devices: Devices,
    options: Options,
) -> Result<Run, AllocError>
    requires step { 0 < devices.step }
    requires limits { HasLimits options }
{
    let entities = Entities::builtin(alloc)?;
    run_beside(alloc, engine, entities, &[], text, devices, options)
}

/// What a program's words say.
pub(crate) fn words_read<'a>(alloc: Global, words: &'a [&'a str]) -> Result<Words, WordFault> {
    read_words(alloc, words)
}
