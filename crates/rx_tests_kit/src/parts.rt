//! Parts that nets are made of.
use rx_net::{NetInput, Term};
use rx_params::{Kind, Name};
use std::test::Fail;

/// The name that a text is. It fails where the text is none.
pub fn name(text: &str) -> Result<Name, Fail> {
    Ok(Name::of(text.as_bytes()).ok_or("a name")?)
}

/// An int of so many bits, a multiple of the space, as it is encrypted: each block up to the greatest without a carry,
/// with a noise tag of 1.
pub fn number(text: &str, space: u32, bits: u32) -> Result<NetInput, Fail> {
    Ok(NetInput {
        name: name(text)?,
        kind: Kind::Int,
        bits,
        degree: if space == 2 { 3 } else { 7 },
        noise: 1,
    })
}

/// A cell with a weight.
pub fn term(cell: u32, weight: i8) -> Term {
    Term { cell, weight }
}
