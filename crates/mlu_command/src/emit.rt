//! The answer written, and the status that says what was written.
ghost use Rattle.std.specs.Prelude.{◌≡◌, IfOk, IfErr, OnOk};
ghost use Rattle.std.specs.Io.KnownBytes.{Appends};
ghost use Rattle.mlu_command.specs.Emit.{Emits};
ghost use Rattle.mlu_command.specs.Faults.{fault_text, fault_status};

use crate::fault::Fault;
use std::io::{self, Write};

/// The status where a write failed.
const WRITE_FAILED: u8 = 4;

/// Writes the answer to `out`, or the text of its fault to `err`, and gives the status that the program
/// ends with: 0, that of the fault, or 4 where a write or the flush failed. Nothing more is written
/// then, and never anything to the other writer.
pub fn emit<O: Write, E: Write>(answer: Result<Vec<u8>, Fault>, out: &mut O, err: &mut E) -> u8
    ensures line { IfOk answer (λ line. Emits line.items 0 (O.contents out.old) (O.contents out.new) result) }
    ensures no_text { IfOk answer (λ _. err.new ≡ err.old) }
    ensures text { IfErr answer (λ fault. Emits (fault_text fault) (fault_status fault) (E.contents err.old) (E.contents err.new) result) }
    ensures no_line { IfErr answer (λ _. out.new ≡ out.old) }
{
    match answer {
        Ok(line) => status(put(out, &line), 0),
        Err(fault) => status(put(err, fault.text().as_bytes()), fault.status()),
    }
}

/// The status after a write: `done` where it succeeded.
fn status(written: io::Result<()>, done: u8) -> u8
    ensures done { IfOk written (λ _. result ≡ done) }
    ensures failed { IfErr written (λ _. result ≡ 4) }
{
    match written {
        Ok(()) => done,
        Err(_) => WRITE_FAILED,
    }
}

/// Writes the bytes, and sees that they are not held back.
fn put<W: Write>(writer: &mut W, bytes: &[u8]) -> io::Result<()>
    ensures { OnOk result (Appends (W.contents writer.old) (W.contents writer.new) bytes.now) }
{
    writer.write_all(bytes)?;
    writer.flush()
}
