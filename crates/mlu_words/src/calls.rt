//! The calls that write one output, each by its name, so that one function names the rings of them all.
ghost use Rattle.mlu_words.specs.Named.{Gives};

use crate::evaluation::Vertices;
use crate::fault::Fault;
use crate::operands::Variables;
use crate::words::Words;
use crate::{batches, compression, evaluation};
use mlu_ring::{ExtensionField, Field};
use std::alloc::Global;

/// A call, with what chooses one of its forms.
pub enum Call {
    /// Of a table over the base and a point.
    EvalBase(Vertices),
    /// Of a table over the extension and a point.
    EvalExt,
    /// Of the coordinates of points and the scalars; true adds to the output.
    EvalEqBatch(bool),
    /// Of a table over the base, a point and a scale.
    Compress(Variables),
}

/// Makes the call on its operands. One that has two does not read the third.
pub fn make<F: Field + Words, EF: ExtensionField<F> + Words>(
    alloc: Global,
    call: Call,
    first: &[u32],
    second: &[u32],
    third: &[u32],
    out: &mut [u32],
) -> Result<(), Fault>
    ensures { Gives F.coding EF.coding EF.ring EF.embed call first.now second.now third.now out.old out.new result }
{
    match call {
        Call::EvalBase(vertices) => {
            evaluation::eval_base::<F, EF>(alloc, vertices, first, second, out)
        }
        Call::EvalExt => evaluation::eval_ext::<F, EF>(alloc, first, second, out),
        Call::EvalEqBatch(adds) => batches::eval_eq_batch::<F, EF>(alloc, adds, first, second, out),
        Call::Compress(variables) => {
            compression::compress::<F, EF>(alloc, variables, first, second, third, out)
        }
    }
}
