//! Values from outside: the published ChaCha20 words of an all-zero key, and worked rows.
use crate::{Stream, StreamKind, Words, digits, distance, level_digits, round_to};

const ZERO_SEED: [u8; 32] = [0; 32];

#[test]
fn a_stream_gives_the_published_words(rt: HostRuntime) {
    let mut stream = Stream::new(&ZERO_SEED, 0);
    for word in [0x903d_f1a0_ade0_b876_u64, 0x28bd_8653_e56a_5d40] {
        assert_eq!(rt; stream.next_torus(), word);
    }
    // The lowest bytes of the third and the fourth word are 0xbd and 0xa8.
    for bit in [1u64, 0] {
        assert_eq!(rt; stream.next_bit(), bit);
    }
}

/// The first words of these streams have 0, 1, 524286 and 524287 as their low 19 bits.
#[test]
fn a_draw_reaches_both_ends(rt: HostRuntime) {
    for (number, drawn) in [
        (372_418u64, -131_072i64),
        (408_886, -131_071),
        (617_140, 131_071),
        (728_551, 131_072),
    ] {
        let mut stream = Stream::new(&ZERO_SEED, number);
        assert_eq!(rt; stream.tuniform(17), drawn, "in stream {number}");
    }
}

#[test]
fn a_word_has_its_digits(rt: HostRuntime) {
    for (word, high, low) in [
        (0x8000_0000_0000_0000_u64, -2048i64, 0i64),
        (0x7FFF_FF80_0000_0000, -2048, 0),
        (0x0008_0100_0000_0000, 1, -2047),
        (0xFFFF_FF80_0000_0000, 0, 0),
    ] {
        let mut out = [7i64; 2];
        digits(word, 12, 2, &mut out);
        assert_eq!(rt; out, [high, low], "of {word}");
    }
}

#[test]
fn words_have_the_digits_of_a_level(rt: HostRuntime) {
    let words = [
        0x8000_0000_0000_0000_u64,
        0x7FFF_FF80_0000_0000,
        0x0008_0100_0000_0000,
        0xFFFF_FF80_0000_0000,
    ];
    let mut out = [7i64; 4];
    level_digits(&words, 12, 2, 0, &mut out);
    assert_eq!(rt; out, [-2048, -2048, 1, 0]);
    level_digits(&words, 12, 2, 1, &mut out);
    assert_eq!(rt; out, [0, 0, -2047, 0]);
}

#[test]
fn words_near_zero_and_between_steps(rt: HostRuntime) {
    assert_eq!(rt; distance(u64::MAX), 1);
    assert_eq!(rt; distance(3), 3);
    for (word, rounded) in [
        (0x4000_0000_0000_0000_u64, 0x8000_0000_0000_0000_u64),
        (0x3FFF_FFFF_FFFF_FFFF, 0),
        (0xC000_0000_0000_0000, 0),
    ] {
        assert_eq!(rt; round_to(word, 1), rounded, "of {word}");
    }
}

#[test]
fn a_row_of_a_kind_has_its_stream(rt: HostRuntime) {
    assert_eq!(rt; StreamKind::SmallKey.stream_number(0), 0x1_0000_0000);
    assert_eq!(rt; StreamKind::BlockNoise.stream_number(5), 0x8_0000_0005);
    assert_eq!(rt; StreamKind::PairMask.stream_number(0), 0x9_0000_0000);
    assert_eq!(rt; StreamKind::PairNoise.stream_number(287), 0xa_0000_011f);
}

#[test]
fn words_are_kept(rt: HostRuntime) -> Result<(), std::alloc::AllocError> {
    let mut words = Words::from_vec(vec![in rt.alloc(); 5u64, 6]?);
    words.as_mut_slice()[1] += 1;
    assert_eq!(rt; words.as_slice(), [5u64, 7].as_slice());
    assert_eq!(rt; words.into_vec().len(), 2);
    Ok(())
}
