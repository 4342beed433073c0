//! The limits of the fields at their edges, and worked sums.
use crate::{Bounds, Params, Refused, check, check_pairs, named};

fn set(fields: [u32; 10]) -> Params {
    let [
        message_bits,
        glwe_dim,
        poly_size,
        lwe_dim,
        pbs_base_log,
        pbs_level,
        ks_base_log,
        ks_level,
        glwe_bound,
        lwe_bound,
    ] = fields;
    Params {
        message_bits,
        glwe_dim,
        poly_size,
        lwe_dim,
        pbs_base_log,
        pbs_level,
        ks_base_log,
        ks_level,
        glwe_bound,
        lwe_bound,
    }
}

/// A set within all limits, with one field changed.
fn changed(field: u32, value: u32) -> Params {
    let mut p = set([2, 1, 512, 24, 2, 2, 2, 2, 17, 20]);
    match field {
        1 => p.message_bits = value,
        2 => p.glwe_dim = value,
        3 => p.poly_size = value,
        4 => p.lwe_dim = value,
        5 => p.pbs_base_log = value,
        6 => p.pbs_level = value,
        7 => p.ks_base_log = value,
        8 => p.ks_level = value,
        9 => p.glwe_bound = value,
        _ => p.lwe_bound = value,
    }
    p
}

/// The last value of each field that is within its limit, and the first that is outside, at both ends.
#[test]
fn each_field_has_its_limits(rt: HostRuntime) {
    for (field, inside, outside) in [
        (1u32, 2u32, 1u32),
        (1, 3, 4),
        (2, 1, 0),
        (2, 4, 5),
        (3, 64, 32),
        (3, 4096, 8192),
        (3, 128, 100),
        (4, 1, 0),
        (4, 1024, 1025),
        (5, 1, 0),
        (5, 24, 25),
        (6, 1, 0),
        (6, 30, 31),
        (7, 1, 0),
        (7, 24, 25),
        (8, 1, 0),
        (8, 30, 31),
        (9, 40, 41),
        (9, 0, u32::MAX),
        (10, 40, 41),
        (10, 0, u32::MAX),
    ] {
        for (value, is_outside) in [(inside, false), (outside, true)] {
            let p = changed(field, value);
            let refused = Err(Refused::Limit {
                field,
                value: u64::from(value),
            });
            assert_eq!(rt; check(&p) == refused, is_outside, "field {field}, {value}");
            assert_eq!(rt; p.is_in_range(), !is_outside, "field {field}, {value}");
        }
    }
}

#[test]
fn limits_of_several_fields(rt: HostRuntime) {
    let at_limit = [2u32, 1, 512, 24, 12, 5, 4, 15, 0, 0];
    assert_eq!(rt; check(&set(at_limit)).is_ok(), true);
    for (fields, field, value) in [
        ([2u32, 1, 512, 24, 12, 6, 4, 15, 0, 0], 6u32, 6u64),
        ([2, 1, 512, 24, 1, 31, 4, 6, 0, 0], 6, 31),
        ([2, 1, 512, 24, 2, u32::MAX, 4, 6, 0, 0], 6, 4_294_967_295),
        ([2, 1, 512, 24, 12, 5, 4, 16, 0, 0], 8, 16),
        ([2, 1, 512, 24, 12, 5, 1, 31, 0, 0], 8, 31),
        ([u32::MAX; 10], 1, 4_294_967_295),
        ([2, 1, 4096, 820, 12, 1, 4, 1, 0, 0], 11, 16_797_696),
    ] {
        assert_eq!(rt;
            check(&set(fields)),
            Err(Refused::Limit { field, value }),
            "field {field}, {value}"
        );
    }
}

#[test]
fn worked_sets(rt: HostRuntime) {
    assert_eq!(rt; named("rx-2-3"), None);
    for (name, left) in [
        ("rx-2-2", 259_370_420_715_651_072u128),
        ("rx-test", 167_932_821_841_641_472),
        ("rx-3-3", 57_084_679_840_333_824),
        ("rx-k2", 173_708_569_307_250_688),
    ] {
        let p = named(name).unwrap_or(set([0; 10]));
        assert_eq!(rt; check(&p).map(|bounds| bounds.left), Ok(left), "{name}");
    }
    assert_eq!(rt;
        check(&set([2, 1, 512, 24, 12, 2, 4, 6, 17, 20])),
        Ok(Bounds {
            step: 282_574_488_338_432,
            boot: 6_781_787_720_122_368,
            base: 6_781_787_720_122_368,
            switch: 281_500_746_514_432,
            round: 225_179_981_368_524_800,
            left: 259_370_420_715_651_072,
            right: 288_230_376_151_711_744,
        })
    );
}

#[test]
fn sets_that_pass_the_limits_and_are_refused(rt: HostRuntime) {
    let right = 288_230_376_151_711_744u128;
    for (fields, refused) in [
        (
            [2u32, 1, 512, 27, 12, 2, 4, 6, 17, 20],
            Refused::Noise {
                left: 290_630_635_804_950_528,
                right,
            },
        ),
        (
            [2, 1, 64, 1, 5, 3, 5, 3, 40, 38],
            Refused::Noise { left: right, right },
        ),
        (
            [3, 1, 64, 24, 12, 3, 5, 6, 17, 20],
            Refused::NarrowBox { n: 64, p: 64 },
        ),
        // The number of key words is exactly its limit here.
        (
            [2, 1, 4096, 819, 12, 1, 4, 1, 0, 0],
            Refused::Noise {
                left: 40_141_036_090_584_484_315_136,
                right,
            },
        ),
    ] {
        assert_eq!(rt; check(&set(fields)), Err(refused));
    }
}

#[test]
fn worked_sets_by_pairs(rt: HostRuntime) {
    assert_eq!(rt;
        check_pairs(&set([2, 1, 512, 24, 12, 2, 4, 6, 17, 20])),
        Ok(Bounds {
            step: 285_323_267_407_872,
            boot: 3_423_879_208_894_464,
            base: 3_423_879_208_894_464,
            switch: 281_500_746_514_432,
            round: 225_179_981_368_524_800,
            left: 242_580_878_159_511_552,
            right: 288_230_376_151_711_744,
        })
    );
    let p = named("rx-test").unwrap_or(set([0; 10]));
    let sums = check_pairs(&p).map(|bounds| (bounds.step, bounds.boot, bounds.left));
    let worked = (
        142_936_511_610_880u128,
        571_746_046_443_520u128,
        165_129_067_190_812_672u128,
    );
    assert_eq!(rt; sums, Ok(worked));
}

/// 28 bits are too many for bit after bit and few enough for pairs, and an odd number of bits is no pairs.
#[test]
fn sets_that_a_rotation_takes_and_the_other_refuses(rt: HostRuntime) {
    let wide = set([2, 1, 512, 28, 12, 2, 4, 6, 17, 20]);
    let refused = Refused::Noise {
        left: 301_050_707_501_383_680,
        right: 288_230_376_151_711_744,
    };
    assert_eq!(rt; check(&wide), Err(refused));
    let left = check_pairs(&wide).map(|bounds| bounds.left);
    assert_eq!(rt; left, Ok(281_462_907_852_554_240u128));
    for bits in [1u32, 7, 27, 1023] {
        let odd = set([2, 1, 512, bits, 12, 2, 4, 6, 17, 20]);
        let refused = Refused::Limit {
            field: 4,
            value: u64::from(bits),
        };
        assert_eq!(rt; check_pairs(&odd), Err(refused), "{bits}");
    }
}

#[test]
fn a_refusal_is_told(rt: HostRuntime) -> Result<(), std::alloc::AllocError> {
    for (refused, text) in [
        (
            Refused::Limit {
                field: 3,
                value: 100,
            },
            "field 3 is outside its limit with 100",
        ),
        (
            Refused::NarrowBox { n: 64, p: 64 },
            "64 coefficients are too few for 64 numbers",
        ),
        (
            Refused::Noise { left: 8, right: 7 },
            "the noise 8 is not below 7",
        ),
    ] {
        assert_eq!(rt; format!(in rt.alloc(); "{refused}")?.as_str(), text);
    }
    Ok(())
}
