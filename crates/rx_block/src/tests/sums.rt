//! Weighted sums of blocks: their tags, their refusals, and what they decrypt to.
ghost use Rattle.std.specs.Prelude.{◌≡◌, ◌+◌, length, IfOk};
ghost use Rattle.rx_params.specs.Acceptance.{FieldsInRange};
ghost use Rattle.rx_params.specs.Derived.{large_dim};
ghost use Rattle.rx_block.specs.declared.block.Block.{Block};
ghost use Rattle.rx_block.specs.Combine.{AreBlocksOf};

use crate::{Block, TagFault, combine, decrypt_block, fresh_block};
use rx_lwe::SecretKey;
use rx_net::Term;
use rx_params::{Kind, Params, named};
use std::alloc::{AllocError, Global};
use std::test::Fail;

/// The weights of the first block, of the first block again and of the second, and the constant; then the
/// degree, the noise tag and the number of the sum, or its refusal.
type Row = ([i8; 3], i16, Result<[u8; 3], TagFault>);

/// Over a block of 3 with degree 3 and noise 1, and a block of 1 with degree 1 and noise 3.
static ROWS: [Row; 14] = [
    ([5, 0, 0], 0, Ok([15, 5, 15])),
    ([6, 0, 0], 0, Err(TagFault::Range { low: 0, high: 18 })),
    ([2, 3, 0], 0, Ok([15, 5, 15])),
    ([-1, 0, 0], 3, Ok([3, 1, 0])),
    ([-1, 0, 0], 2, Err(TagFault::Range { low: -1, high: 2 })),
    ([1, 0, -1], 1, Ok([4, 4, 3])),
    ([0, 0, 0], 15, Ok([15, 0, 15])),
    ([0, 0, 0], 16, Err(TagFault::Range { low: 16, high: 16 })),
    ([0, 0, 2], 0, Err(TagFault::Noise { sum: 6 })),
    ([0, 0, -2], 2, Err(TagFault::Noise { sum: 6 })),
    ([6, 0, 2], 0, Err(TagFault::Range { low: 0, high: 20 })),
    (
        [-128, 127, 0],
        0,
        Err(TagFault::Range {
            low: -384,
            high: 381,
        }),
    ),
    (
        [0, 0, 0],
        32767,
        Err(TagFault::Range {
            low: 32767,
            high: 32767,
        }),
    ),
    (
        [0, 0, 0],
        -32768,
        Err(TagFault::Range {
            low: -32768,
            high: -32768,
        }),
    ),
];

/// The answer for three terms over two blocks, and a fresh block of 2 as the call leaves it.
fn summed(
    alloc: Global,
    p: &Params,
    key: &SecretKey,
    blocks: &[Block],
    weights: [i8; 3],
    constant: i16,
) -> Result<(Block, Option<TagFault>), AllocError>
    requires fields { FieldsInRange p.now }
    requires key { length key.now ≡ large_dim p.now }
    requires two { length blocks.now ≡ 2 }
    requires words { AreBlocksOf p.now blocks.now }
    ensures { IfOk result (λ made. let block : Block = made.0 in length block.words
        ≡ length key.now + 1) }
{
    let mut out = fresh_block(alloc, p, key, &[2; 32], &[3; 32], 9, Kind::Int, 2)?;
    let [first, again, second] = weights;
    let terms = [
        Term {
            cell: 0,
            weight: first,
        },
        Term {
            cell: 0,
            weight: again,
        },
        Term {
            cell: 1,
            weight: second,
        },
    ];
    let fault = combine(p, blocks, &terms, constant, &mut out).err();
    Ok((out, fault))
}

#[test]
fn sums_have_their_tags_and_refusals(rt: HostRuntime) -> Result<(), Fail> {
    let Some(p) = named("rx-test") else {
        panic!(rt; "a set of that name");
    };
    assert_eq!(rt; p.message_bits, 2);
    let key = SecretKey::large(rt.alloc(), &p, &[1; 32])?;
    let three = fresh_block(rt.alloc(), &p, &key, &[2; 32], &[3; 32], 0, Kind::Int, 3)?;
    let mut one = fresh_block(rt.alloc(), &p, &key, &[2; 32], &[3; 32], 1, Kind::Bit, 1)?;
    one.noise = 3;
    let blocks = [three, one];
    for (weights, constant, want) in ROWS.as_slice() {
        let (out, fault) = summed(rt.alloc(), &p, &key, &blocks, *weights, *constant)?;
        let [degree, noise, number] = want.unwrap_or([3, 1, 2]);
        assert_eq!(rt; fault, want.err(), "at {constant}");
        assert_eq!(rt; out.degree, degree, "at {constant}");
        assert_eq!(rt; out.noise, noise, "at {constant}");
        assert_eq!(rt; decrypt_block(&p, &key, &out), Ok(number), "at {constant}");
    }
    Ok(())
}
