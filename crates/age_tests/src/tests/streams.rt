//! Tests of std's readers and writers that fail in one call, alone and under a decryption.

use crate::tests::examples::FILE;
use age_file::{Failed, Reading, Sink, Source, Writing, decrypt};
use age_keys::KnownKey;
use age_vectors::FILE_KEY;
use std::alloc::Global;
use std::io::{self, ErrorKind, Read, Write};

/// A reader or writer that passes calls on to another. The call numbered `fail_call`, from 0,
/// fails, and moves nothing.
#[derive(Drop)]
struct FailingIo<T> {
    inner: T,
    calls: u32,
    fail_call: u32,
}

impl<T> FailingIo<T> {
    fn new(inner: T, fail_call: u32) -> FailingIo<T> {
        FailingIo {
            inner,
            calls: 0,
            fail_call,
        }
    }

    fn turn(&mut self) -> io::Result<()> {
        let call = self.calls;
        self.calls = call.saturating_add(1);
        if call == self.fail_call {
            return Err(io::Error::from(ErrorKind::Other));
        }
        Ok(())
    }
}

impl<T: Read> Read for FailingIo<T> {
    fn read(&mut self, buf: &mut [u8]) -> io::Result<usize> {
        self.turn()?;
        self.inner.read(buf)
    }
}

impl<T: Write> Write for FailingIo<T> {
    fn write(&mut self, buf: &[u8]) -> io::Result<usize> {
        self.turn()?;
        self.inner.write(buf)
    }

    fn flush(&mut self) -> io::Result<()> {
        self.turn()?;
        self.inner.flush()
    }
}

#[test]
fn a_reader(rt: HostRuntime) {
    let mut source = Reading::new(FailingIo::new(b"abc".as_slice(), 1));
    let mut into = [0u8; 2];
    assert!(rt; source.pull(&mut into) == Ok(2) && into == *b"ab");
    assert!(rt; source.pull(&mut into) == Err(Failed) && source.failures() == 1);
    assert!(rt; source.pull(&mut into) == Ok(1) && into == *b"cb");
    assert!(rt; source.pull(&mut into) == Ok(0) && source.failures() == 1);
}

/// Tests that a writer that takes nothing counts as failed.
#[test]
fn a_writer(rt: HostRuntime) {
    let mut held = [0u8; 3];
    let mut sink = Writing::new(FailingIo::new(held.as_mut_slice(), 1));
    assert!(rt; sink.put(b"ab") == Ok(2));
    assert!(rt; sink.flush() == Err(Failed) && sink.failures() == 1);
    assert!(rt; sink.flush() == Ok(()));
    assert!(rt; sink.put(b"cd") == Ok(1) && sink.failures() == 1);
    assert!(rt; sink.put(b"d") == Err(Failed) && sink.failures() == 2);
    assert!(rt; held == *b"abc");
}

/// Returns the number of the fault with which a decryption stops if this read and this write fail,
/// or 0 if it doesn't stop.
fn run_failing_io(alloc: Global, fail_read: u32, fail_write: u32) -> u8 {
    let mut held = [0u8; 5];
    let mut source = Reading::new(FailingIo::new(FILE.as_slice(), fail_read));
    let mut sink = Writing::new(FailingIo::new(held.as_mut_slice(), fail_write));
    match decrypt(alloc, &KnownKey::new(FILE_KEY), &mut source, &mut sink) {
        Ok(_) => 0,
        Err(stopped) => stopped.fault.number(),
    }
}

/// Tests a decryption in which calls fail. One read gives the file and one more its end; one write
/// takes the text, and a flush follows.
#[test]
fn a_decryption(rt: HostRuntime) {
    for (fail_read, fail_write, number) in [
        (0, 9, 26),
        (1, 9, 26),
        (9, 0, 27),
        (9, 1, 27),
        (2, 2, 0),
    ] {
        assert!(rt; run_failing_io(rt.alloc(), fail_read, fail_write) == number);
    }
}
