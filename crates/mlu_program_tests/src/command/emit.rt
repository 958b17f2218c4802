//! What reaches two writers, and what a failing one leaves.

use mlu_command::Fault;
use mlu_command::emit::emit;
use std::alloc::{AllocError, Global};
use std::io::{self, ErrorKind, Write};
use std::test::Fail;

/// A writer that takes a byte at a time, holds what it takes until it is flushed, and fails after so
/// many calls.
#[derive(Drop)]
struct Slow {
    left: usize,
    bytes: [u8; 16],
    taken: usize,
    flushed: usize,
}

impl Slow {
    fn new(left: usize) -> Slow {
        Slow {
            left,
            bytes: [0; 16],
            taken: 0,
            flushed: 0,
        }
    }

    fn step(&mut self) -> io::Result<()> {
        self.left = self.left.checked_sub(1).ok_or(ErrorKind::Other)?;
        Ok(())
    }

    /// The bytes that were flushed.
    fn flushed(&self) -> &[u8] {
        self.bytes.get(..self.flushed).unwrap_or(&[])
    }
}

impl Write for Slow {
    fn write(&mut self, buf: &[u8]) -> io::Result<usize> {
        self.step()?;
        match (buf, self.bytes.get_mut(self.taken)) {
            ([first, ..], Some(place)) => {
                *place = *first;
                self.taken += 1;
                Ok(1)
            }
            _ => Ok(0),
        }
    }

    fn flush(&mut self) -> io::Result<()> {
        self.step()?;
        self.flushed = self.taken;
        Ok(())
    }
}

/// A writer that fails at one call alone, and counts its calls.
#[derive(Drop)]
struct Once {
    fails_at: usize,
    calls: usize,
}

impl Once {
    fn new(fails_at: usize) -> Once {
        Once { fails_at, calls: 0 }
    }

    fn call(&mut self) -> io::Result<()> {
        let call = self.calls;
        self.calls = call.saturating_add(1);
        if call == self.fails_at {
            return Err(ErrorKind::Other.into());
        }
        Ok(())
    }
}

impl Write for Once {
    fn write(&mut self, buf: &[u8]) -> io::Result<usize> {
        self.call()?;
        Ok(buf.len())
    }

    fn flush(&mut self) -> io::Result<()> {
        self.call()
    }
}

/// The answer of one line.
fn line(alloc: Global) -> Result<Vec<u8>, AllocError> {
    Vec::from_slice(alloc, b"8\n")
}

#[test]
fn the_line_reaches_one_writer(rt: HostRuntime) -> Result<(), Fail> {
    let (mut out, mut err) = (Slow::new(99), Slow::new(99));
    assert_eq!(rt; emit(Ok(line(rt.alloc())?), &mut out, &mut err), 0);
    assert_eq!(rt; out.flushed(), b"8\n".as_slice());
    assert_eq!(rt; err.taken, 0);
    Ok(())
}

#[test]
fn the_text_reaches_the_other(rt: HostRuntime) {
    let rows = [
        (Fault::Usage, 2, "mlu: usage\n"),
        (Fault::Number, 2, "mlu: number\n"),
        (Fault::Length, 2, "mlu: length\n"),
        (Fault::Arity, 2, "mlu: arity\n"),
        (Fault::Memory, 3, "mlu: memory\n"),
    ];
    for (fault, status, text) in rows {
        let (mut out, mut err) = (Slow::new(99), Slow::new(99));
        assert_eq!(rt; emit(Err(fault), &mut out, &mut err), status);
        assert_eq!(rt; err.flushed(), text.as_bytes());
        assert_eq!(rt; out.taken, 0);
    }
}

#[test]
fn a_write_or_the_flush_fails(rt: HostRuntime) -> Result<(), Fail> {
    for left in 0..3 {
        let (mut out, mut err) = (Slow::new(left), Slow::new(99));
        assert_eq!(rt; emit(Ok(line(rt.alloc())?), &mut out, &mut err), 4);
        assert_eq!(rt; err.taken, 0);
    }
    for left in 0..12 {
        let (mut out, mut err) = (Slow::new(99), Slow::new(left));
        assert_eq!(rt; emit(Err(Fault::Usage), &mut out, &mut err), 4);
        assert_eq!(rt; out.taken, 0);
    }
    Ok(())
}

#[test]
fn nothing_follows_a_failure(rt: HostRuntime) -> Result<(), Fail> {
    for fails_at in 0..2 {
        let (mut out, mut err) = (Once::new(fails_at), Once::new(99));
        assert_eq!(rt; emit(Ok(line(rt.alloc())?), &mut out, &mut err), 4);
        assert_eq!(rt; (out.calls, err.calls), (fails_at + 1, 0));
    }
    Ok(())
}
