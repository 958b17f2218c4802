//! The lanes of packed values, one after the other.
ghost use Rattle.std.specs.Prelude.{◌≡◌};
ghost use Rattle.std.specs.Iterator.{YieldsFirst, item_count};
ghost use Rattle.mlu_ring.specs.Lanes.{logical};

use crate::extension::{ExtensionField, PackedFieldExtension};
use crate::field::Field;
use crate::packed::{Lanewise, PackedValue};
use std::iter::FusedIterator;
use std::marker::{Model, PhantomData};

/// An iterator over the lanes of packed values, in order. Contracts see the lanes that are left:
/// `next` gives the first of them, and `None` where there is none.
///
/// Made by [`PackedFieldExtension::to_ext_iter`].
#[derive(Drop)]
pub struct ExtLanes<'a, F: Field, EF: ExtensionField<F>, P: PackedFieldExtension<F, EF>> {
    packed: &'a [P],
    lane: usize,
    of: PhantomData<(F, EF)>,
}

impl<'a, F: Field, EF: ExtensionField<F>, P: PackedFieldExtension<F, EF>> Model
    for ExtLanes<'a, F, EF, P> {
    ghost use Rattle.std.specs.Prelude.{◌<◌, List, drop};
    ghost use Rattle.mlu_ring.specs.Lanes.{logical};

    ghost Value = { List EF };

    ghost view = { λ it. drop it.lane (logical P.ext_lanes it.packed.now) };

    ghost invariant = { λ it. it.lane < F.Packing.WIDTH };
}

impl<'a, F: Field, EF: ExtensionField<F>, P: PackedFieldExtension<F, EF>> ExtLanes<'a, F, EF, P> {
    pub(crate) fn new(packed: &'a [P]) -> Self
        ensures { result ≡ logical P.ext_lanes packed.now }
    {
        ExtLanes {
            packed,
            lane: 0,
            of: PhantomData,
        }
    }
}

impl<'a, F: Field, EF: ExtensionField<F>, P: PackedFieldExtension<F, EF>> Iterator
    for ExtLanes<'a, F, EF, P> {
    type Item = EF;

    ghost next_gives = { YieldsFirst (λ left. left) };

    ghost remaining = { item_count (λ left. left) };

    #[inline]
    fn next(&mut self) -> Option<EF> {
        let (first, others) = self.packed.split_first()?;
        let element = first.ext_lane(self.lane);
        let width = <F::Packing as PackedValue>::WIDTH;
        if self.lane + 1 < width {
            self.lane += 1;
        } else {
            self.packed = others;
            self.lane = 0;
        }
        Some(element)
    }
}

impl<'a, F: Field, EF: ExtensionField<F>, P: PackedFieldExtension<F, EF>> FusedIterator
    for ExtLanes<'a, F, EF, P> {}
