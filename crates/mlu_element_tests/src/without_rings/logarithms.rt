//! Logarithms of powers of two, and of the next one.
use mlu_ring::{log2_ceil_usize, log2_strict_usize};

#[test]
fn logarithms(rt: HostRuntime) {
    assert_eq!(rt; log2_strict_usize(1), 0);
    assert_eq!(rt; log2_strict_usize(1024), 10);
    for (number, logarithm) in [(0, 0), (1, 0), (5, 3), (8, 3), (usize::MAX, 64)] {
        assert_eq!(rt; log2_ceil_usize(number), logarithm);
    }
}
