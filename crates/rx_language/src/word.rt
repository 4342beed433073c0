//! The words that begin the lines of a circuit.
ghost use Rattle.std.specs.Prelude.{◌≡◌};
ghost use Rattle.rx_language.specs.Words.{spelling, word_of, row as table_row, form, is_input, is_output};

use crate::form::{Form, Rule, Tail};

/// The first word of a line after line 1.
#[derive(Clone, Copy, Debug, PartialEq, Eq)]
pub enum Word {
    /// `in R`: an input, an Int of the circuit's width.
    In,
    /// `inw R w`: an input, an Int of width w.
    Inw,
    /// `ins R w`: an input, a Sint of width w.
    Ins,
    /// `inbit R`: an input, a Bit.
    Inbit,
    /// `const R v`: the number v, an Int of the circuit's width.
    Const,
    /// `constw R w v`: the number v, an Int of width w.
    Constw,
    /// `add R a b`: the sum.
    Add,
    /// `sub R a b`: the difference.
    Sub,
    /// `mul R a b`: the product.
    Mul,
    /// `div R a b`: how often b goes into a; all ones where b is 0.
    Div,
    /// `rem R a b`: what a leaves by b; a where b is 0.
    Rem,
    /// `neg R a`: 0 less a.
    Neg,
    /// `and R a b`: both, bit by bit.
    And,
    /// `or R a b`: either, bit by bit.
    Or,
    /// `xor R a b`: one of the two, bit by bit.
    Xor,
    /// `not R a`: the other, bit by bit.
    Not,
    /// `shl R a s`: a times two to the s.
    Shl,
    /// `shr R a s`: a by two to the s, rounded down.
    Shr,
    /// `shlv R a b`: as `shl` by the value of b.
    Shlv,
    /// `shrv R a b`: as `shr` by the value of b.
    Shrv,
    /// `eq R a b`: whether a is equal to b.
    Eq,
    /// `ne R a b`: whether a is not equal to b.
    Ne,
    /// `lt R a b`: whether a is less than b.
    Lt,
    /// `le R a b`: whether a is at most b.
    Le,
    /// `gt R a b`: whether a is greater than b.
    Gt,
    /// `ge R a b`: whether a is at least b.
    Ge,
    /// `select R c a b`: a where c is 1, else b.
    Select,
    /// `min R a b`: the lesser.
    Min,
    /// `max R a b`: the greater.
    Max,
    /// `cast R w a`: the number of a as an Int of width w.
    Cast,
    /// `casts R w a`: the number of a as a Sint of width w.
    Casts,
    /// `out a`: the value of a is an output under its name.
    Out,
}

/// Each word once.
const EVERY_WORD: [Word; 32] = [
    Word::In,
    Word::Inw,
    Word::Ins,
    Word::Inbit,
    Word::Const,
    Word::Constw,
    Word::Add,
    Word::Sub,
    Word::Mul,
    Word::Div,
    Word::Rem,
    Word::Neg,
    Word::And,
    Word::Or,
    Word::Xor,
    Word::Not,
    Word::Shl,
    Word::Shr,
    Word::Shlv,
    Word::Shrv,
    Word::Eq,
    Word::Ne,
    Word::Lt,
    Word::Le,
    Word::Gt,
    Word::Ge,
    Word::Select,
    Word::Min,
    Word::Max,
    Word::Cast,
    Word::Casts,
    Word::Out,
];

impl Word {
    /// The word that a text is. None where it is none.
    pub fn of(text: &[u8]) -> Option<Word>
        ensures { result ≡ word_of text.now }
    {
        EVERY_WORD
            .iter()
            .copied()
            .find(|word| text == word.as_str().as_bytes())
    }

    /// The word as text.
    pub fn as_str(self) -> &'static str
        ensures { result.now ≡ spelling self }
    {
        match self {
            Word::In => "in",
            Word::Inw => "inw",
            Word::Ins => "ins",
            Word::Inbit => "inbit",
            Word::Const => "const",
            Word::Constw => "constw",
            Word::Add => "add",
            Word::Sub => "sub",
            Word::Mul => "mul",
            Word::Div => "div",
            Word::Rem => "rem",
            Word::Neg => "neg",
            Word::And => "and",
            Word::Or => "or",
            Word::Xor => "xor",
            Word::Not => "not",
            Word::Shl => "shl",
            Word::Shr => "shr",
            Word::Shlv => "shlv",
            Word::Shrv => "shrv",
            Word::Eq => "eq",
            Word::Ne => "ne",
            Word::Lt => "lt",
            Word::Le => "le",
            Word::Gt => "gt",
            Word::Ge => "ge",
            Word::Select => "select",
            Word::Min => "min",
            Word::Max => "max",
            Word::Cast => "cast",
            Word::Casts => "casts",
            Word::Out => "out",
        }
    }

    /// What stands on a line of the word, and which kinds it takes and gives.
    pub fn form(self) -> Form
        ensures { result ≡ form self }
    {
        match self {
            Word::In => row(false, 0, Tail::Nothing, Rule::GivesInt),
            Word::Inw => row(true, 0, Tail::Nothing, Rule::GivesInt),
            Word::Ins => row(true, 0, Tail::Nothing, Rule::GivesSint),
            Word::Inbit => row(false, 0, Tail::Nothing, Rule::GivesBit),
            Word::Const => row(false, 0, Tail::Constant, Rule::GivesInt),
            Word::Constw => row(true, 0, Tail::Constant, Rule::GivesInt),
            Word::Add | Word::Sub | Word::Mul | Word::Min | Word::Max => row(
                false,
                2,
                Tail::Nothing,
                Rule::TwoNumbers,
            ),
            Word::Div | Word::Rem => row(false, 2, Tail::Nothing, Rule::TwoInts),
            Word::Neg => row(false, 1, Tail::Nothing, Rule::OneNumber),
            Word::And | Word::Or | Word::Xor => row(false, 2, Tail::Nothing, Rule::TwoAlike),
            Word::Not => row(false, 1, Tail::Nothing, Rule::OneOfAny),
            Word::Shl | Word::Shr => row(false, 1, Tail::Amount, Rule::OneNumber),
            Word::Shlv | Word::Shrv => row(false, 2, Tail::Nothing, Rule::NumberAndAmount),
            Word::Eq | Word::Ne | Word::Lt | Word::Le | Word::Gt | Word::Ge => row(
                false,
                2,
                Tail::Nothing,
                Rule::Compared,
            ),
            Word::Select => row(false, 3, Tail::Nothing, Rule::Chosen),
            Word::Cast => row(true, 1, Tail::Nothing, Rule::CastInt),
            Word::Casts => row(true, 1, Tail::Nothing, Rule::CastSint),
            Word::Out => row(false, 0, Tail::Nothing, Rule::OneOfAny),
        }
    }

    /// Whether a line of the word is an input.
    pub fn is_input(self) -> bool
        ensures { result ≡ is_input self }
    {
        matches!(self, Word::In | Word::Inw | Word::Ins | Word::Inbit)
    }

    /// Whether a line of the word is an output, which defines no name.
    pub fn is_output(self) -> bool
        ensures { result ≡ is_output self }
    {
        matches!(self, Word::Out)
    }
}

fn row(stated: bool, args: usize, tail: Tail, rule: Rule) -> Form
    ensures { result ≡ table_row stated args tail rule }
{
    Form {
        stated,
        args,
        tail,
        rule,
    }
}
