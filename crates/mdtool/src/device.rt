//! Where bytes come from and go to: any source and sink, and how they fail.

ghost use Rattle.std.specs.Prelude.{◌≡◌, ℕ, ◌+◌, ◌-◌, ◌^◌, ◌<◌, ◌≤◌, List, [], Option, length, take, IfOk, OnOk, OnErr};
ghost use Rattle.std.specs.Result.{is_ok};
ghost use Rattle.mdtool.specs.Bytes.{Takes, AtEnd, Gains, Puts};

use std::error::Error;
use std::fmt;

/// A device failed.
#[derive(Clone, Copy, Debug, PartialEq, Eq)]
pub struct DeviceFault;

impl fmt::Display for DeviceFault {
    fn fmt<W: fmt::Write>(&self, f: &mut fmt::Formatter<W>) -> fmt::Result {
        f.write_str("a device failed")
    }
}

impl Error for DeviceFault {}

/// Where bytes come from.
pub trait Feed {
    /// The bytes left, where the feed tells them.
    ghost left: { Self → Option (List ℕ) };

    /// How often it has failed.
    ghost failures: { Self → ℕ };

    /// Falls with each call that takes bytes.
    ghost calls_left: { Self → ℕ };

    /// Takes some bytes. Into a nonempty buffer 0 come only at the end. A fault takes none.
    fn get(&mut self, buffer: &mut [u8]) -> Result<usize, DeviceFault>
        requires { failures self.old < 2 ^ 64 - 1 }
        ensures bound { IfOk result (λ n. n ≤ length buffer.new) }
        ensures taken { IfOk result (λ n. Takes (left self.old) (take n buffer.new) (left self.new)) }
        ensures end { IfOk result (λ n. n ≡ 0 → 0 < length buffer.new → AtEnd (left self.new)) }
        ensures never_rises { calls_left self.new ≤ calls_left self.old }
        ensures falls { IfOk result (λ n. 0 < n → calls_left self.new < calls_left self.old) }
        ensures ok { OnOk result (failures self.new ≡ failures self.old) }
        ensures err { OnErr result (failures self.new ≡ failures self.old + 1) }
        ensures stays { OnErr result (left self.new ≡ left self.old) };
}

/// Where bytes go.
pub trait Out {
    /// The bytes written, where the out tells them.
    ghost written: { Self → Option (List ℕ) };

    /// How often it has failed.
    ghost failures: { Self → ℕ };

    /// Writes some of the bytes, at least one of a nonempty slice. A fault writes none.
    fn put(&mut self, bytes: &[u8]) -> Result<usize, DeviceFault>
        requires { failures self.old < 2 ^ 64 - 1 }
        ensures bound { IfOk result (λ n. n ≤ length bytes.now) }
        ensures some { IfOk result (λ n. 0 < length bytes.now → 0 < n) }
        ensures gains { IfOk result (λ n. Gains (written self.old) (take n bytes.now) (written self.new)) }
        ensures ok { OnOk result (failures self.new ≡ failures self.old) }
        ensures err { OnErr result (failures self.new ≡ failures self.old + 1) }
        ensures stays { OnErr result (written self.new ≡ written self.old) };

    /// Hands on what was written.
    fn flush(&mut self) -> Result<(), DeviceFault>
        requires { failures self.old < 2 ^ 64 - 1 }
        ensures ok { OnOk result (failures self.new ≡ failures self.old) }
        ensures err { OnErr result (failures self.new ≡ failures self.old + 1) }
        ensures same { written self.new ≡ written self.old };
}

/// Writes all the bytes. After a fault a beginning of them went out.
pub fn put_all<W: Out>(out: &mut W, bytes: &[u8]) -> Result<(), DeviceFault>
    requires { W.failures out.old < 2 ^ 64 - 1 }
    ensures { Puts (W.written out.old) (W.failures out.old) bytes.now (is_ok result) (W.written out.new) (W.failures out.new) }
{
    let mut at = 0;
    while at < bytes.len() {
        at += out.put(&bytes[at..])?;
    }
    Ok(())
}
