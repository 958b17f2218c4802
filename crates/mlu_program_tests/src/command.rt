//! The worked rows of the program.

mod emit;

use mlu_command::{Fault, answer};
use std::alloc::{AllocError, Global};
use std::test::Fail;

/// The words of a command line.
fn words(alloc: Global, line: &str) -> Result<Vec<String>, AllocError> {
    let mut words = Vec::new(alloc);
    for word in line.split(' ') {
        words.push(String::from_str(alloc, word)?)?;
    }
    Ok(words)
}

#[test]
fn lines(rt: HostRuntime) -> Result<(), Fail> {
    let rows = [
        ("eval 1,2,3,4 2,3", "8\n"),
        ("eval 7 -", "7\n"),
        ("eval 2013265920,1 2", "3\n"),
        ("next 1,2,3,4 2,3", "3\n"),
        ("next 7 -", "7\n"),
        ("msb 2,3", "2,2013265918,2013265917,6\n"),
        ("msb -", "1\n"),
        ("lsb 2,3", "2,2013265917,2013265918,6\n"),
        ("lsb -", "1\n"),
        ("fold-first 1,2,3,4 2", "5,6\n"),
        ("fold-last 1,2,3,4 2", "3,5\n"),
        ("routes 1,2,3,4,5,6,7,8 2,3,5", "20\n20\n20\n20\n"),
        ("routes 7 -", "7\n7\n7\n7\n"),
        ("routes 3,4 2", "5\n5\n5\n5\n"),
        ("routes 1,2,3,4 2,3", "8\n8\n8\n8\n"),
        (
            "sumcheck 1,2,3,4 2,3 5,7",
            "2013265917,10,6\n2013265613,742,70\n8316\n",
        ),
        ("sumcheck 3,4 2 5", "2013265918,8,3\n112\n"),
        ("sumcheck 7 - -", "7\n"),
    ];
    for (line, text) in rows {
        let bytes = answer(rt.alloc(), &words(rt.alloc(), line)?).expect(&rt, line);
        assert_eq!(rt; bytes.as_slice(), text.as_bytes(), "{line}");
    }
    Ok(())
}

#[test]
fn faults(rt: HostRuntime) -> Result<(), Fail> {
    let rows = [
        ("eval 1,2,3 2", Fault::Length),
        ("eval 1,2 2,3", Fault::Arity),
        ("eval 1,02 3", Fault::Number),
        ("eval 1,2 2013265921", Fault::Number),
        ("eval - -", Fault::Length),
        ("eval 1,2", Fault::Usage),
        ("next 1,2,3 2", Fault::Length),
        ("next 1,2 2,3", Fault::Arity),
        ("eval +1,2 3", Fault::Number),
        ("eval 1,,2 3", Fault::Number),
        ("eval 1,2,3 x", Fault::Number),
        ("eval 1,2,3 1,2,3", Fault::Length),
        ("evaluate 1,2 3", Fault::Usage),
        ("msb", Fault::Usage),
        ("msb 2 3", Fault::Usage),
        ("msb 02", Fault::Number),
        ("lsb 2,", Fault::Number),
        ("fold-first 7 2", Fault::Arity),
        ("fold-first 1,2,3 2", Fault::Length),
        ("fold-first 1,2 -", Fault::Number),
        ("fold-last 7 2", Fault::Arity),
        ("fold-last - 2", Fault::Length),
        ("fold-last 1,2 3,4", Fault::Number),
        ("fold-last 1,2,3 x", Fault::Number),
        ("sumcheck 1,2 2 -", Fault::Arity),
        ("sumcheck 1,2 - 2", Fault::Arity),
        ("sumcheck 1,2,3 2 x", Fault::Number),
        ("sumcheck 1,2,3 2 -", Fault::Length),
        ("sumcheck 1,2 2", Fault::Usage),
    ];
    for (line, fault) in rows {
        let words = words(rt.alloc(), line)?;
        assert_eq!(rt; answer(rt.alloc(), &words).err(), Some(fault), "{line}");
    }
    Ok(())
}

/// The words of a command on a point of so many coordinates.
fn words_of_point(
    alloc: Global,
    name: &str,
    coordinates: usize,
) -> Result<Vec<String>, AllocError> {
    let mut point = String::from_str(alloc, "2")?;
    for _ in 1..coordinates {
        point.push_str(",2")?;
    }
    let mut words = Vec::new(alloc);
    words.push(String::from_str(alloc, name)?)?;
    words.push(point)?;
    Ok(words)
}

#[test]
fn long_points(rt: HostRuntime) -> Result<(), Fail> {
    // A table of 2^63 entries can be asked for, but not had.
    for (coordinates, fault) in [(63, Fault::Memory), (64, Fault::Length)] {
        for name in ["msb", "lsb"] {
            let words = words_of_point(rt.alloc(), name, coordinates)?;
            assert_eq!(rt;
                answer(rt.alloc(), &words).err(),
                Some(fault),
                "{name} {coordinates}"
            );
        }
    }
    Ok(())
}

#[test]
fn texts_and_statuses(rt: HostRuntime) -> Result<(), Fail> {
    let rows = [
        (Fault::Usage, "mlu: usage\n", 2, "Usage"),
        (Fault::Number, "mlu: number\n", 2, "Number"),
        (Fault::Length, "mlu: length\n", 2, "Length"),
        (Fault::Arity, "mlu: arity\n", 2, "Arity"),
        (Fault::Memory, "mlu: memory\n", 3, "Memory"),
    ];
    for (fault, text, status, name) in rows {
        assert_eq!(rt; fault.text(), text);
        assert_eq!(rt; fault.status(), status);
        let shown = format!(in rt.alloc(); "{fault:?}")?;
        assert_eq!(rt; shown.as_str(), name);
    }
    Ok(())
}

/// The words of a command on the table 0, 1, .., of so many entries, and so many coordinates 2.
fn large_table(
    alloc: Global,
    name: &str,
    entries: u32,
    coordinates: u32,
) -> Result<String, AllocError> {
    let mut line = format!(in alloc; "{name} 0")?;
    for entry in 1..entries {
        write!(line, ",{entry}")?;
    }
    line.push_str(" 2")?;
    for _ in 1..coordinates {
        line.push_str(",2")?;
    }
    Ok(line)
}

#[test]
fn large_tables(rt: HostRuntime) -> Result<(), Fail> {
    // Entry `x` is `x`, so the value at `n` coordinates 2 is twice `2^n - 1`; that of the next entries
    // is one more, but for the last vertex, whose weight is `2^n`.
    let rows = [
        ("routes", 512, 9, "1022\n1022\n1022\n1022\n"),
        ("eval", 8192, 13, "16382\n"),
        ("next", 8192, 13, "8191\n"),
        ("routes", 8192, 13, "16382\n16382\n16382\n16382\n"),
    ];
    for (name, entries, coordinates, text) in rows {
        let line = large_table(rt.alloc(), name, entries, coordinates)?;
        let words = words(rt.alloc(), line.as_str())?;
        let bytes = answer(rt.alloc(), &words).expect(&rt, name);
        assert_eq!(rt; bytes.as_slice(), text.as_bytes(), "{name} {entries}");
    }
    Ok(())
}
