//! What a server key and a mask seed keep by their types, as the relations of files say it.
ghost use Rattle.rx_codec.specs.ServerFile.{IsServer, AreWords64};
ghost use Rattle.rx_seeded.specs.Masks.{IsSeed};

use rx_boot::ServerKey;

/// A server key has the sizes of its set, which is accepted, and words of 64 bits.
pub(crate) fn key_fits(key: &ServerKey)
    ensures { IsServer key.now }
{
    are_words(key.boot.words());
    are_words(key.switch.words());
}

fn are_words(words: &[u64])
    ensures { AreWords64 words.now }
{
    let _count = words.len();
}

/// A mask seed has 32 bytes.
pub(crate) fn seed_fits(mask_seed: &[u8; 32])
    ensures { IsSeed mask_seed.now }
{
    let _seed = mask_seed.as_slice();
}
