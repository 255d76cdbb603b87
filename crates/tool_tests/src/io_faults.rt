//! Readers and writers of the system that fail, and go on behind it.

use mdtool::{Cause, DeviceFault, Feed, Out, ReadFeed, WriteOut};
use std::io;
use std::io::{ErrorKind, Read, Write};
use std::test::Fail;

/// A reader or a writer whose first calls fail, each for the next of these reasons.
#[derive(Drop)]
struct Failing<T> {
    faults: &'static [ErrorKind],
    inner: T,
}

impl<T> Failing<T> {
    fn turn(&mut self) -> io::Result<()> {
        match self.faults.split_first() {
            Some((&fault, rest)) => {
                self.faults = rest;
                Err(io::Error::from(fault))
            }
            None => Ok(()),
        }
    }
}

impl<T: Read> Read for Failing<T> {
    fn read(&mut self, buf: &mut [u8]) -> io::Result<usize> {
        self.turn()?;
        self.inner.read(buf)
    }
}

impl<T: Write> Write for Failing<T> {
    fn write(&mut self, buf: &[u8]) -> io::Result<usize> {
        self.turn()?;
        self.inner.write(buf)
    }

    fn flush(&mut self) -> io::Result<()> {
        self.turn()?;
        self.inner.flush()
    }
}

static WAITS_AND_INTERRUPTED: [ErrorKind; 2] = [ErrorKind::WouldBlock, ErrorKind::Interrupted];

static INTERRUPTED: [ErrorKind; 1] = [ErrorKind::Interrupted];

/// A read that is interrupted counts as failed, for another cause than the read before it. The next one goes on.
#[test]
fn an_interrupted_read_fails_once(rt: HostRuntime) -> Result<(), Fail> {
    let mut feed = ReadFeed::new(Failing {
        faults: &WAITS_AND_INTERRUPTED,
        inner: b"ab".as_slice(),
    });
    let mut buffer = [0; 4];
    assert!(rt; feed.is_unread());
    assert!(rt; feed.get(&mut buffer) == Err(DeviceFault));
    assert!(rt; feed.cause() == Cause::Waits);
    assert!(rt; feed.get(&mut buffer) == Err(DeviceFault));
    assert!(rt; feed.cause() == Cause::Other);
    assert!(rt; feed.get(&mut buffer) == Ok(2));
    assert!(rt; buffer.starts_with(b"ab"));
    assert!(rt; feed.get(&mut buffer) == Ok(0));
    assert!(rt; !feed.is_unread());
    Ok(())
}

/// So does a write that is interrupted.
#[test]
fn an_interrupted_write_fails_once(rt: HostRuntime) -> Result<(), Fail> {
    let mut bytes = Vec::new(rt.alloc());
    let mut out = WriteOut::new(Failing {
        faults: &INTERRUPTED,
        inner: &mut bytes,
    });
    assert!(rt; out.put(b"ab") == Err(DeviceFault));
    assert!(rt; out.put(b"ab") == Ok(2));
    assert!(rt; out.flush() == Ok(()));
    assert_eq!(rt; bytes.as_slice(), b"ab".as_slice());
    Ok(())
}

/// A flush that is interrupted counts as failed.
#[test]
fn an_interrupted_flush_fails_once(rt: HostRuntime) -> Result<(), Fail> {
    let mut out = WriteOut::new(Failing {
        faults: &INTERRUPTED,
        inner: Vec::new(rt.alloc()),
    });
    assert!(rt; out.flush() == Err(DeviceFault));
    assert!(rt; out.flush() == Ok(()));
    Ok(())
}

/// A writer that takes no byte.
#[derive(Drop)]
struct Full;

impl Write for Full {
    fn write(&mut self, _buf: &[u8]) -> io::Result<usize> {
        Ok(0)
    }

    fn flush(&mut self) -> io::Result<()> {
        Ok(())
    }
}

#[test]
fn a_write_of_no_byte_fails(rt: HostRuntime) -> Result<(), Fail> {
    let mut out = WriteOut::new(Full);
    assert!(rt; out.put(b"a") == Err(DeviceFault));
    assert!(rt; out.put(b"") == Ok(0));
    Ok(())
}
