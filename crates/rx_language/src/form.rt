//! The rows of the table of lines: what stands on a line after its word, and which kinds it takes and gives.
ghost use Rattle.std.specs.Prelude.{◌≡◌, if◌then◌else◌};
ghost use Rattle.rx_language.specs.Kinds.{kind_by};

use crate::kind::NameKind;

/// The row of a word. A line is the word, a name, the width where one is stated, the names of the arguments, and a
/// numeral where there is one.
#[derive(Clone, Copy, Debug, PartialEq, Eq)]
pub struct Form {
    /// Whether a width is stated.
    pub stated: bool,
    /// How many names of arguments stand there, 0 to 3.
    pub args: usize,
    /// The numeral at the end.
    pub tail: Tail,
    /// The kinds of the arguments and of the result.
    pub rule: Rule,
}

/// The numeral at the end of a line.
#[derive(Clone, Copy, Debug, PartialEq, Eq)]
pub enum Tail {
    /// None.
    Nothing,
    /// A number below two to the width.
    Constant,
    /// A number of bits to shift by, up to 255.
    Amount,
}

/// The kinds of the arguments of a line and of its result. A number is an Int or a Sint.
#[derive(Clone, Copy, Debug, PartialEq, Eq)]
pub enum Rule {
    /// No argument; an Int of the line's width.
    GivesInt,
    /// No argument; a Sint of the line's width.
    GivesSint,
    /// No argument; a Bit.
    GivesBit,
    /// One number; its kind.
    OneNumber,
    /// Two numbers of one kind; their kind.
    TwoNumbers,
    /// Two Ints of one width; their kind.
    TwoInts,
    /// One argument; its kind.
    OneOfAny,
    /// Two arguments of one kind; their kind.
    TwoAlike,
    /// A number and an Int of its width; the kind of the first.
    NumberAndAmount,
    /// Two numbers of one kind; a Bit.
    Compared,
    /// A Bit and two numbers of one kind; the kind of the numbers.
    Chosen,
    /// One argument; an Int of the line's width.
    CastInt,
    /// One argument; a Sint of the line's width.
    CastSint,
}

impl Rule {
    /// The kind that a line of this width gives its name, where its arguments have these kinds. None where it takes no
    /// such arguments.
    pub fn kind_of(self, width: u32, args: &[NameKind]) -> Option<NameKind>
        ensures { result ≡ kind_by self width args.now }
    {
        match (self, args) {
            (Rule::GivesInt, []) => Some(NameKind::Int(width)),
            (Rule::GivesSint, []) => Some(NameKind::Sint(width)),
            (Rule::GivesBit, []) => Some(NameKind::Bit),
            (Rule::OneNumber, [a]) => only_if(a.is_number(), *a),
            (Rule::TwoNumbers, [a, b]) => only_if(a.are_numbers(*b), *a),
            (Rule::TwoInts, [a, b]) => only_if(a.are_ints(*b), *a),
            (Rule::OneOfAny, [a]) => Some(*a),
            (Rule::TwoAlike, [a, b]) => only_if(a.is_same(*b), *a),
            (Rule::NumberAndAmount, [a, b]) => only_if(a.is_shifted_by(*b), *a),
            (Rule::Compared, [a, b]) => only_if(a.are_numbers(*b), NameKind::Bit),
            (Rule::Chosen, [c, a, b]) => only_if(c.is_same(NameKind::Bit) && a.are_numbers(*b), *a),
            (Rule::CastInt, [_]) => Some(NameKind::Int(width)),
            (Rule::CastSint, [_]) => Some(NameKind::Sint(width)),
            _ => None,
        }
    }
}

fn only_if(holds: bool, kind: NameKind) -> Option<NameKind>
    ensures { result ≡ (if holds then Some kind else None) }
{
    if holds { Some(kind) } else { None }
}
