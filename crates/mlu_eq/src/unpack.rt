//! Packed elements as the elements in their lanes.
ghost use Rattle.std.specs.Prelude.{◌≡◌, ◌*◌, length};
ghost use Rattle.mlu_ring.specs.Lanes.{logical};

use mlu_ring::{ExtensionField, Field, Lanewise, PackedFieldExtension, PackedValue};

/// Writes the lanes of `elements`, joined in order. Asks for as many places.
#[inline]
pub fn unpack_into<F: Field, EF: ExtensionField<F>>(
    elements: &[EF::ExtensionPacking],
    out: &mut [EF],
)
    requires { length out.old ≡ length elements.now * F.Packing.WIDTH }
    ensures { out.new ≡ logical EF.ExtensionPacking.ext_lanes elements.now }
{
    let width = <F::Packing as PackedValue>::WIDTH;
    for (i, element) in elements.iter().enumerate() {
        let start = i * width;
        element.store_ext(&mut out[start..start + width]);
    }
}
