//! The kinds of numbers, and the blocks that they take, as in the TFHE-rs handbook, integer (radix).
ghost use Rattle.std.specs.Prelude.{◌≡◌, ◌⊎◌};
ghost use Rattle.rx_params.specs.Kinds.{greatest, block_count, is_form};

/// A whole number of one block or more, or a bit of one block.
#[derive(Clone, Copy, Debug, PartialEq, Eq)]
pub enum Kind {
    /// A whole number of up to 64 bits, of which each block has `message_bits`.
    Int,
    /// 0 or 1.
    Bit,
}

impl Kind {
    /// The greatest number of a block of this kind without a carry: 3 or 7 for an int, by its message bits, which
    /// are 2 or 3, and 1 for a bit.
    pub fn greatest(self, message_bits: u32) -> u8
        requires { (message_bits ≡ 2) ⊎ (message_bits ≡ 3) }
        ensures { result ≡ greatest self message_bits }
    {
        match self {
            Kind::Int => 2u8.pow(message_bits) - 1,
            Kind::Bit => 1,
        }
    }

    /// How many blocks a number of this kind and of so many bits has; bits of an int that fill no block are left
    /// out. The message bits are 2 or 3.
    pub fn block_count(self, message_bits: u32, bits: u32) -> u32
        requires { (message_bits ≡ 2) ⊎ (message_bits ≡ 3) }
        ensures { result ≡ block_count self message_bits bits }
    {
        match self {
            Kind::Int => bits / message_bits,
            Kind::Bit => 1,
        }
    }

    /// Whether a number of this kind may have so many bits under encryption: an int a multiple of the message
    /// bits, which are 2 or 3, from one block to 64 bits, and a bit 1.
    pub fn is_form(self, message_bits: u32, bits: u32) -> bool
        requires { (message_bits ≡ 2) ⊎ (message_bits ≡ 3) }
        ensures { result ≡ is_form message_bits self bits }
    {
        match self {
            Kind::Int => message_bits <= bits && bits <= 64 && bits.is_multiple_of(message_bits),
            Kind::Bit => bits == 1,
        }
    }
}
