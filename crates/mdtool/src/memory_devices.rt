//! Bytes in memory as a source and a sink, which fail at a chosen call.

ghost use Rattle.std.specs.Prelude.{◌≡◌, ℕ, ◌+◌, ◌-◌, ◌^◌, ◌<◌, ◌≤◌, List, [], Option, Some, None, length, take, drop};

use crate::device::{DeviceFault, Feed, Out};
use std::alloc::Global;

/// Bytes in memory, which fail at a chosen call.
#[derive(Drop)]
pub struct MemoryFeed<'a> {
    rest: &'a [u8],
    /// How many bytes a call gives at most; not 0.
    step: usize,
    /// The calls before the one that fails.
    calls_to_failure: Option<u64>,
    failures: u64,
    ghost steps: { 0 < step },
}

impl<'a> MemoryFeed<'a> {
    /// A feed of these bytes that gives at most `step` of them a call, and fails at the call that so many come before; with
    /// `None` at none. `step` is not 0.
    pub fn new(bytes: &'a [u8], step: usize, calls_to_failure: Option<u64>) -> MemoryFeed<'a>
        requires { 0 < step }
        ensures left { ⟦<MemoryFeed<'a> as Feed>⟧.left result ≡ Some bytes.entry.now }
        ensures failures { ⟦<MemoryFeed<'a> as Feed>⟧.failures result ≡ 0 }
    {
        MemoryFeed {
            rest: bytes,
            step,
            calls_to_failure,
            failures: 0,
        }
    }
}

impl<'a> Feed for MemoryFeed<'a> {
    ghost left = { λ feed. Some feed.rest.now };

    ghost failures = { λ feed. feed.failures };

    ghost calls_left = { λ feed. length feed.rest.now };

    fn get(&mut self, buffer: &mut [u8]) -> Result<usize, DeviceFault> {
        if is_due(&mut self.calls_to_failure) {
            self.failures += 1;
            return Err(DeviceFault);
        }
        let count = self.step.min(buffer.len()).min(self.rest.len());
        let (now, rest) = self.rest.split_at(count);
        buffer[..count].copy_from_slice(now);
        self.rest = rest;
        Ok(count)
    }
}

/// Whether the call is the one that fails.
fn is_due(calls_to_failure: &mut Option<u64>) -> bool {
    match *calls_to_failure {
        None => false,
        Some(0) => {
            *calls_to_failure = None;
            true
        }
        Some(calls) => {
            *calls_to_failure = Some(calls - 1);
            false
        }
    }
}

/// An out that keeps the bytes, takes at most `step` of them a call, and fails at a chosen call, and where a growth is refused; flushes count as calls.
#[derive(Drop)]
pub struct MemoryOut {
    bytes: Vec<u8>,
    step: usize,
    calls_to_failure: Option<u64>,
    failures: u64,
    flushes: u64,
    ghost steps: { 0 < step },
}

impl MemoryOut {
    /// An out that takes at most `step` bytes a call, and fails at the call that so many come before; with
    /// `None` at none. `step` is not 0.
    pub fn new(alloc: Global, step: usize, calls_to_failure: Option<u64>) -> MemoryOut
        requires { 0 < step }
        ensures written { ⟦<MemoryOut as Out>⟧.written result ≡ Some [] }
        ensures failures { ⟦<MemoryOut as Out>⟧.failures result ≡ 0 }
    {
        MemoryOut {
            bytes: Vec::new(alloc),
            step,
            calls_to_failure,
            failures: 0,
            flushes: 0,
        }
    }

    /// What was written.
    pub fn bytes(&self) -> &[u8]
        ensures { ⟦<MemoryOut as Out>⟧.written self.now ≡ Some result.now }
    {
        &self.bytes
    }

    /// How many flushes succeeded; stays at its greatest value.
    pub fn flushes(&self) -> u64
        ensures { result ≡ self.now.flushes }
    {
        self.flushes
    }
}

impl Out for MemoryOut {
    ghost written = { λ out. Some out.bytes.items };

    ghost failures = { λ out. out.failures };

    fn put(&mut self, bytes: &[u8]) -> Result<usize, DeviceFault> {
        let count = self.step.min(bytes.len());
        if is_due(&mut self.calls_to_failure)
            || self.bytes.extend_from_slice(&bytes[..count]).is_err()
        {
            self.failures += 1;
            return Err(DeviceFault);
        }
        Ok(count)
    }

    fn flush(&mut self) -> Result<(), DeviceFault> {
        if is_due(&mut self.calls_to_failure) {
            self.failures += 1;
            return Err(DeviceFault);
        }
        self.flushes = self.flushes.saturating_add(1);
        Ok(())
    }
}
