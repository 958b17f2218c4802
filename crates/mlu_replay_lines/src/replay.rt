//! Cases answered line by line, and their count.
ghost use Rattle.std.specs.Prelude.{◌≡◌, ◌≢◌, ◌+◌, ◌<◌, ◌≤◌, ◌^◌, ◌↔◌, ℕ, List, [], string_bytes};
ghost use Rattle.std.specs.Prelude.{true, false, IfOk, IfErr, IfSome, OnOk};
ghost use Rattle.std.specs.Io.KnownBytes.{Appends, IsAtEnd};
ghost use Rattle.std.specs.IoError.{error_kind};
ghost use Rattle.std.specs.Io.BufRead.{DropsThrough, first_piece};
ghost use Rattle.mlu_replay_lines.specs.Counts.{Agrees, CountsLines, Grows, GrowsTo, IsCase, IsNoCase, LinesAgree, MoreDiffer};
ghost use Rattle.mlu_replay_lines.specs.Counts.{MoreUnknown, TellsDiffering, TellsUnknown, case_line, count_line, disagreeing};
ghost use Rattle.mlu_replay_lines.specs.Counts.{first_word, unknown_line};
ghost use Rattle.mlu_replay_lines.specs.Faults.{reason_text};

use crate::fault::{Fault, Reason};
use crate::stop::Stop;
use std::alloc::Global;
use std::io::{self, BufRead, BufReader, BufWriter, ErrorKind, Read, Write};
use std::str;

/// How many cases were compared, how many of them differ, and how many lines were no cases.
#[derive(Clone, Copy, Debug, Default, PartialEq, Eq)]
pub struct Tally {
    /// The cases that were answered.
    pub compared: u64,
    /// Those of them whose answer is another text.
    pub differ: u64,
    /// The lines that are no cases.
    pub unknown: u64,
}

impl Tally {
    /// The status that the program ends with: 0 exactly where no case differs and no line is unknown, else 1.
    pub fn status(self) -> u8
        ensures none { (result ≡ 0) ↔ ((self.differ ≡ 0) × (self.unknown ≡ 0)) }
        ensures most { result ≤ 1 }
    {
        if self.differ == 0 && self.unknown == 0 {
            0
        } else {
            1
        }
    }
}

/// What answers the cases: what is asked may have several answers.
pub trait Answers {
    ghost gives: { List ℕ → List ℕ → Type 0 };

    /// The answer to what is asked: the call, the width, the tag of the rings, and the operands.
    ///
    /// # Errors
    /// Where the call, its rings or its operands are none that there are, and where memory is refused.
    fn answer(alloc: Global, asked: &str) -> Result<String, Fault>
        ensures { IfOk result (λ text. gives asked.now (string_bytes text)) };
}

/// As [`replay`], with a buffer for each stream.
///
/// # Errors
/// As [`replay`], and where a buffer is refused: then nothing is read or written.
pub fn replay_streams<A: Answers, R: Read + Drop, W: Write + Drop>(
    alloc: Global,
    input: R,
    out: W,
) -> Result<Tally, Stop>
    ensures lines { IfOk result (λ tally. CountsLines tally (R.remaining input)) }
    ensures within { IfOk result (λ tally. tally.differ ≤ tally.compared) }
    ensures agree { IfOk result (λ tally. disagreeing tally ≡ 0 → LinesAgree A.gives (R.remaining input)) }
{
    let mut input = BufReader::new(alloc, input).map_err(|_| Stop::Memory)?;
    let mut out = BufWriter::new(alloc, out).map_err(|_| Stop::Memory)?;
    replay::<A, _, _>(alloc, &mut input, &mut out)
}

/// Answers each line of the input, writes a line for each that differs or is unknown, and then the
/// count. Where the bytes of the input are known, as many lines are compared or unknown as it has, and
/// where none differs or is unknown, each is a case that gives one of the answers.
///
/// # Errors
/// Where the input cannot be read, or has 2^64 - 1 lines or more; where a write fails, or memory is refused.
pub fn replay<A: Answers, R: BufRead, W: Write>(
    alloc: Global,
    input: &mut R,
    out: &mut W,
) -> Result<Tally, Stop>
    ensures lines { IfOk result (λ tally. CountsLines tally (R.remaining input.old)) }
    ensures within { IfOk result (λ tally. tally.differ ≤ tally.compared) }
    ensures agree { IfOk result (λ tally. disagreeing tally ≡ 0 → LinesAgree A.gives (R.remaining input.old)) }
    ensures last { IfOk result (λ tally. GrowsTo (W.contents out.old) (W.contents out.new) (count_line tally)) }
{
    let mut tally = Tally::default();
    let mut line = Vec::new(alloc);
    for lines in 0..u64::MAX {
        if !next_line(input, &mut line)? {
            write_count(tally, out)?;
            return Ok(tally);
        }
        replay_line::<A, W>(alloc, lines + 1, &line, &mut tally, out)?;
    }
    Err(Stop::Read)
}

/// Reads a line in place of what stands in `line`, without its line feed, or the bytes that are left.
/// Answers false at the end of the input.
fn next_line<R: BufRead>(input: &mut R, line: &mut Vec<u8>) -> Result<bool, Stop>
    ensures line { OnOk result (IfSome (R.remaining input.old) (λ bytes. line.new.items ≡ first_piece 10 bytes)) }
    ensures rest { OnOk result (DropsThrough (R.remaining input.old) (R.remaining input.new) 10) }
    ensures more { IfOk result (λ more. more ≡ true → IfSome (R.remaining input.old) (λ bytes. bytes ≢ [])) }
    ensures end { IfOk result (λ more. more ≡ false → IsAtEnd (R.remaining input.old)) }
    ensures stop { IfErr result (λ stop. stop ≢ Stop.Write) }
{
    line.clear();
    let count = input.read_until(b'\n', line).map_err(unread)?;
    if line.last() == Some(&b'\n') {
        line.pop();
    }
    Ok(count > 0)
}

/// Why the program stops where the input cannot be read.
fn unread(error: io::Error) -> Stop
    ensures memory { (result ≡ Stop.Memory) ↔ (error_kind error ≡ ErrorKind.OutOfMemory) }
    ensures never { result ≢ Stop.Write }
{
    match error.kind() {
        ErrorKind::OutOfMemory => Stop::Memory,
        _ => Stop::Read,
    }
}

/// What a line asks, and the answer that it gives.
#[derive(Clone, Copy)]
struct Case<'a> {
    asked: &'a str,
    given: &'a str,
}

impl<'a> Case<'a> {
    /// What the line asks, and after ` = ` what it gives.
    ///
    /// # Errors
    /// Where it is no UTF-8 text, or has no ` = `.
    fn read(line: &'a [u8]) -> Result<Self, Reason>
        ensures case { IfOk result (λ case. IsCase line.now case.asked.now case.given.now) }
        ensures none { IfErr result (λ reason. IsNoCase line.now reason) }
    {
        let text = str::from_utf8(line).map_err(|_| Reason::Text)?;
        let (asked, given) = text.split_once(" = ").ok_or(Reason::Equals)?;
        Ok(Case { asked, given })
    }

    /// The name of the call.
    fn op(self) -> &'a str
        ensures { result.now ≡ first_word self.entry.asked.now }
    {
        match self.asked.split_once(' ') {
            Some((op, _)) => op,
            None => self.asked,
        }
    }
}

/// Answers one line, counts it, and reports it where that is due.
fn replay_line<A: Answers, W: Write>(
    alloc: Global,
    number: u64,
    line: &[u8],
    tally: &mut Tally,
    out: &mut W,
) -> Result<(), Stop>
    requires within { tally.old.differ ≤ tally.old.compared }
    requires fits { tally.old.compared + tally.old.unknown + 1 < 2 ^ 64 }
    ensures one { IfOk result (λ _. tally.new.compared + tally.new.unknown ≡ tally.old.compared + tally.old.unknown + 1) }
    ensures within { IfOk result (λ _. tally.new.differ ≤ tally.new.compared) }
    ensures more { IfOk result (λ _. disagreeing tally.old ≤ disagreeing tally.new) }
    ensures agrees { OnOk result (disagreeing tally.new ≡ disagreeing tally.old → Agrees A.gives line.now) }
    ensures same { OnOk result (disagreeing tally.new ≡ disagreeing tally.old → Appends (W.contents out.old) (W.contents out.new) []) }
    ensures differs { OnOk result (MoreDiffer tally.old tally.new → TellsDiffering A.gives number line.now (W.contents out.old) (W.contents out.new)) }
    ensures unknown { OnOk result (MoreUnknown tally.old tally.new → TellsUnknown number (W.contents out.old) (W.contents out.new)) }
    ensures grows { OnOk result (Grows (W.contents out.old) (W.contents out.new)) }
    ensures stop { IfErr result (λ stop. stop ≢ Stop.Read) }
{
    match answered::<A>(alloc, line) {
        Ok((case, text)) => {
            let answer = text.as_str();
            tally.compared += 1;
            if case.given == answer {
                return Ok(());
            }
            tally.differ += 1;
            report_differing(number, case, answer, out)
        }
        Err(Fault::Unknown(reason)) => {
            tally.unknown += 1;
            report_unknown(number, reason, out)
        }
        Err(Fault::Memory) => Err(Stop::Memory),
    }
}

/// Writes the line for a case that differs.
fn report_differing<W: Write>(
    number: u64,
    case: Case<'_>,
    answer: &str,
    out: &mut W,
) -> Result<(), Stop>
    ensures line { OnOk result (Appends (W.contents out.old) (W.contents out.new) (case_line number case.entry answer.now)) }
    ensures stop { IfErr result (λ stop. stop ≡ Stop.Write) }
{
    let (op, given) = (case.op(), case.given);
    writeln!(
        out,
        "line {number}: {op} differs: given {given}, answered {answer}"
    )
    .map_err(|_| Stop::Write)
}

/// Writes the line for what is no case.
fn report_unknown<W: Write>(number: u64, reason: Reason, out: &mut W) -> Result<(), Stop>
    ensures line { OnOk result (Appends (W.contents out.old) (W.contents out.new) (unknown_line number (reason_text reason))) }
    ensures stop { IfErr result (λ stop. stop ≡ Stop.Write) }
{
    let reason = reason.text();
    writeln!(out, "line {number}: unknown: {reason}").map_err(|_| Stop::Write)
}

/// The case of a line, and its answer.
fn answered<A: Answers>(alloc: Global, line: &[u8]) -> Result<(Case<'_>, String), Fault>
    ensures case { IfOk result (λ both. IsCase line.now both.0.asked.now both.0.given.now) }
    ensures answer { IfOk result (λ both. A.gives both.0.asked.now (string_bytes both.1)) }
{
    let case = Case::read(line)?;
    let answer = A::answer(alloc, case.asked)?;
    Ok((case, answer))
}

/// Writes the last line, and sees that no line is held back.
fn write_count<W: Write>(tally: Tally, out: &mut W) -> Result<(), Stop>
    ensures last { OnOk result (Appends (W.contents out.old) (W.contents out.new) (count_line tally)) }
    ensures stop { IfErr result (λ stop. stop ≡ Stop.Write) }
{
    let Tally {
        compared,
        differ,
        unknown,
    } = tally;
    writeln!(
        out,
        "{compared} compared, {differ} differ, {unknown} unknown"
    )
    .map_err(|_| Stop::Write)?;
    out.flush().map_err(|_| Stop::Write)
}
