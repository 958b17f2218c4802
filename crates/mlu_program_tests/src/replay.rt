//! What is written of lines, and their count; streams that fail.
ghost use Rattle.std.specs.Prelude.{⊤};

use mlu_replay_lines::fault::{Fault, Reason};
use mlu_replay_lines::replay::{Answers, Tally, replay};
use mlu_replay_lines::stop::Stop;
use std::alloc::Global;
use std::io::{ErrorKind, Read, Write};
use std::test::Fail;
use std::{io, str};

/// Answers that stand fixed.
struct Fixed;

impl Answers for Fixed {
    ghost gives = { λ asked answer. ⊤ };

    fn answer(alloc: Global, asked: &str) -> Result<String, Fault> {
        let answer = match asked {
            "msb 4 b 2,3" => "2,2013265918,2013265917,6",
            "msb 4 b -" => "1",
            "transpose 4 b true 1,2;3,4" => "2/2,4,1,3",
            _ => return Err(Fault::Unknown(Reason::Width)),
        };
        Ok(String::from_str(alloc, answer)?)
    }
}

#[test]
fn lines_and_their_count(rt: HostRuntime) -> Result<(), Fail> {
    let mut input = &b"msb 4 b 2,3 = 2,2013265918,2013265917,6\n\
        \n\
        msb 4 b - = 2\n\
        msb 4 b 1\n\
        msb 4 b - = 1 \n\
        msb 3 b - = 1\n\
        \xff = 1\n\
        transpose 4 b true 1,2;3,4 = 2/2,4,1,3\n\
        msb 4 b - = 1 = 1"[..];
    let mut output = Vec::new(rt.alloc());
    let tally = replay::<Fixed, _, _>(rt.alloc(), &mut input, &mut output)?;
    let text = "line 2: unknown: there is no `=` before an answer\n\
        line 3: msb differs: given 2, answered 1\n\
        line 4: unknown: there is no `=` before an answer\n\
        line 5: msb differs: given 1 , answered 1\n\
        line 6: unknown: the width is none of 1, 2, 4, 8, 16\n\
        line 7: unknown: the line is no UTF-8 text\n\
        line 9: msb differs: given 1 = 1, answered 1\n\
        5 compared, 3 differ, 4 unknown\n";
    assert_eq!(rt; str::from_utf8(&output), Ok(text));
    assert_eq!(rt; (tally.compared, tally.differ, tally.unknown), (5, 3, 4));
    assert_eq!(rt; tally.status(), 1);
    Ok(())
}

#[test]
fn no_lines(rt: HostRuntime) -> Result<(), Fail> {
    let mut output = Vec::new(rt.alloc());
    let tally = replay::<Fixed, _, _>(rt.alloc(), &mut &b""[..], &mut output)?;
    assert_eq!(rt;
        output.as_slice(),
        &b"0 compared, 0 differ, 0 unknown\n"[..]
    );
    assert_eq!(rt; tally.status(), 0);
    Ok(())
}

#[test]
fn statuses(rt: HostRuntime) {
    let rows = [((1, 0, 0), 0), ((1, 1, 0), 1), ((1, 0, 1), 1)];
    for ((compared, differ, unknown), status) in rows {
        let tally = Tally {
            compared,
            differ,
            unknown,
        };
        assert_eq!(rt; tally.status(), status);
    }
    for (stop, status) in [(Stop::Read, 2), (Stop::Memory, 3), (Stop::Write, 4)] {
        assert_eq!(rt; stop.status(), status);
    }
}

/// A stream that fails after so many calls.
#[derive(Drop)]
struct Halting {
    left: usize,
}

impl Halting {
    fn step(&mut self) -> io::Result<()> {
        self.left = self.left.checked_sub(1).ok_or(ErrorKind::Other)?;
        Ok(())
    }
}

impl Read for Halting {
    fn read(&mut self, buf: &mut [u8]) -> io::Result<usize> {
        self.step()?;
        match buf {
            [first, ..] => {
                *first = b'\n';
                Ok(1)
            }
            [] => Ok(0),
        }
    }
}

impl Write for Halting {
    fn write(&mut self, buf: &[u8]) -> io::Result<usize> {
        self.step()?;
        Ok(buf.len())
    }

    fn flush(&mut self) -> io::Result<()> {
        self.step()
    }
}

#[test]
fn failing_streams(rt: HostRuntime) -> Result<(), Fail> {
    for left in 0..3 {
        let mut input = io::BufReader::new(rt.alloc(), Halting { left })?;
        let mut output = Vec::new(rt.alloc());
        let stopped = replay::<Fixed, _, _>(rt.alloc(), &mut input, &mut output);
        assert_eq!(rt; stopped, Err(Stop::Read));
    }
    let tally = replay::<Fixed, _, _>(rt.alloc(), &mut &b""[..], &mut Halting { left: 99 })?;
    assert_eq!(rt; tally, Tally::default());
    for left in 0..2 {
        let stopped = replay::<Fixed, _, _>(rt.alloc(), &mut &b"line"[..], &mut Halting { left });
        assert_eq!(rt; stopped, Err(Stop::Write));
    }
    Ok(())
}
