//! The kinds of the names of a circuit.
ghost use Rattle.std.specs.Prelude.{◌≡◌, ◌&&◌};
ghost use Rattle.rx_language.specs.Kinds.{bits_of, is_number, same_kind, are_numbers, are_ints};
ghost use Rattle.rx_language.specs.declared.kind.NameKind.TheVariants.{Int};

/// The kind of a name of a circuit. A width is a multiple of the message bits, from one block to 64 bits.
#[derive(Clone, Copy, Debug, PartialEq, Eq)]
pub enum NameKind {
    /// A whole number below two to the width.
    Int(u32),
    /// A number with a sign, in two's complement, kept as its residue modulo two to the width.
    Sint(u32),
    /// 0 or 1.
    Bit,
}

impl NameKind {
    /// How many bits a value of the kind has.
    pub fn bits(self) -> u32
        ensures { result ≡ bits_of self }
    {
        match self {
            NameKind::Int(width) | NameKind::Sint(width) => width,
            NameKind::Bit => 1,
        }
    }

    /// Whether it is an Int or a Sint.
    pub fn is_number(self) -> bool
        ensures { result ≡ is_number self }
    {
        match self {
            NameKind::Int(_) | NameKind::Sint(_) => true,
            NameKind::Bit => false,
        }
    }

    /// Whether the two are one kind.
    pub(crate) fn is_same(self, other: NameKind) -> bool
        ensures { result ≡ same_kind self other }
    {
        match (self, other) {
            (NameKind::Int(a), NameKind::Int(b)) | (NameKind::Sint(a), NameKind::Sint(b)) => a == b,
            (NameKind::Bit, NameKind::Bit) => true,
            _ => false,
        }
    }

    /// Whether the two are one kind of numbers.
    pub(crate) fn are_numbers(self, other: NameKind) -> bool
        ensures { result ≡ are_numbers self other }
    {
        self.is_number() && self.is_same(other)
    }

    /// Whether the two are Ints of one width.
    pub(crate) fn are_ints(self, other: NameKind) -> bool
        ensures { result ≡ are_ints self other }
    {
        match (self, other) {
            (NameKind::Int(a), NameKind::Int(b)) => a == b,
            _ => false,
        }
    }

    /// Whether it is a number, and the other an Int of its width.
    pub(crate) fn is_shifted_by(self, amount: NameKind) -> bool
        ensures { result ≡ (is_number self && same_kind amount (Int (bits_of self))) }
    {
        self.is_number() && amount.is_same(NameKind::Int(self.bits()))
    }
}
