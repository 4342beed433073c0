// The rows that the cost table works out.
use crate::{Cost, log_up, round_jobs, rounds};

#[test]
fn a_sum_of_four_blocks(rt: HostRuntime) {
    assert_eq!(rt; Cost::add(4), Cost { jobs: 13, depth: 4 });
}

#[test]
fn a_product_of_32_blocks(rt: HostRuntime) {
    assert_eq!(rt; rounds(5, 63), 5);
    assert_eq!(rt; round_jobs(32, 5, 63), 1600);
    assert_eq!(rt;
        Cost::mul(2, 32),
        Cost {
            jobs: 2842,
            depth: 13
        }
    );
}

#[test]
fn a_quotient_of_8_bits_and_of_64(rt: HostRuntime) {
    assert_eq!(rt;
        Cost::div(2, 4),
        Cost {
            jobs: 418,
            depth: 66
        }
    );
    assert_eq!(rt; Cost::div(2, 32).jobs, 29_186);
}

#[test]
fn logarithms(rt: HostRuntime) {
    assert_eq!(rt; log_up(2, 1), 0);
    assert_eq!(rt; log_up(2, 33), 6);
    assert_eq!(rt; log_up(9, 9), 1);
}
