//! What the streams of random words are drawn for (docs/FORMATS.md, Random streams).
ghost use Rattle.std.specs.Prelude.{◌≡◌};
ghost use Rattle.rx_torus.specs.Kinds.{stream_number};

/// What a stream is drawn for. Each row of a kind, by its number from 0, has a stream of its own. A kind gives the number
/// of the stream alone: the seed that is named with it is the one that whoever draws has to take.
#[derive(Clone, Copy, Debug, PartialEq, Eq)]
pub enum StreamKind {
    /// Bits of the small key, under the client's seed. It has row 0 alone.
    SmallKey,
    /// Bits of one polynomial of the large key, under the client's seed. The row is the polynomial.
    LargeKey,
    /// Masks of one bootstrapping row, under the mask seed of the key.
    BootMask,
    /// Noises of one bootstrapping row, under the client's seed.
    BootNoise,
    /// Masks of one row of the key switch, under the mask seed of the key.
    SwitchMask,
    /// The noise of one row of the key switch, under the client's seed.
    SwitchNoise,
    /// Masks of one fresh block, under the mask seed of the encryption. The row is the block's number in
    /// its file.
    BlockMask,
    /// The noise of one fresh block, under the noise seed of the encryption. The row is the same.
    BlockNoise,
    /// Masks of one row of a rotation by pairs, under the mask seed of the key.
    PairMask,
    /// Noises of one row of a rotation by pairs, under the client's seed.
    PairNoise,
}

impl StreamKind {
    ghost use Rattle.rx_torus.specs.Kinds.{stream_number};

    /// The number of the stream of a row: the kind, from 1 to 10 in the order above, times 2^32, and the row.
    pub fn stream_number(self, row: u32) -> u64
        ensures { result ≡ stream_number self row }
    {
        let kind: u64 = match self {
            StreamKind::SmallKey => 1,
            StreamKind::LargeKey => 2,
            StreamKind::BootMask => 3,
            StreamKind::BootNoise => 4,
            StreamKind::SwitchMask => 5,
            StreamKind::SwitchNoise => 6,
            StreamKind::BlockMask => 7,
            StreamKind::BlockNoise => 8,
            StreamKind::PairMask => 9,
            StreamKind::PairNoise => 10,
        };
        kind * 0x1_0000_0000 + u64::from(row)
    }
}
