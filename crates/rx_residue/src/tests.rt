// The edges of a width.
use crate::{residue, signed};

#[test]
fn the_edges_of_four_bits(rt: HostRuntime) {
    assert_eq!(rt; signed(4, 7), 7);
    assert_eq!(rt; signed(4, 8), -8);
    assert_eq!(rt; signed(4, 15), -1);
    assert_eq!(rt; residue(4, -7), 9);
    assert_eq!(rt; residue(4, -16), 0);
}

#[test]
fn the_edges_of_64_bits(rt: HostRuntime) {
    assert_eq!(rt; signed(64, u64::MAX), -1);
    assert_eq!(rt; residue(64, -1), u64::MAX);
    assert_eq!(rt; residue(64, 1 << 64), 0);
}
