//! Prints the outputs of one circuit that has every word of the language, for each width, for numbers with a sign and
//! without, and for inputs at the edges of the width. What it must print stands in `stdout`, and was worked out by
//! `scripts/table_of_values`.
#![tactic(auto)]

use anyhow::{Result, bail};
use rx_language::{Circuit, parse};
use rx_meaning::{takes, value};
use std::alloc::{AllocError, Global};

/// The message bits of a circuit and a width, with the edges of the width.
struct Shape {
    space: u32,
    width: u32,
    /// The width less one.
    last: u32,
    /// Half of two to the width.
    half: u64,
    /// Two to the width, less one.
    most: u64,
}

/// The widths: one block, some blocks, and as many bits as there may be.
const SHAPES: [Shape; 6] = [
    Shape {
        space: 2,
        width: 2,
        last: 1,
        half: 1 << 1,
        most: (1 << 2) - 1,
    },
    Shape {
        space: 2,
        width: 8,
        last: 7,
        half: 1 << 7,
        most: (1 << 8) - 1,
    },
    Shape {
        space: 2,
        width: 64,
        last: 63,
        half: 1 << 63,
        most: u64::MAX,
    },
    Shape {
        space: 3,
        width: 3,
        last: 2,
        half: 1 << 2,
        most: (1 << 3) - 1,
    },
    Shape {
        space: 3,
        width: 9,
        last: 8,
        half: 1 << 8,
        most: (1 << 9) - 1,
    },
    Shape {
        space: 3,
        width: 63,
        last: 62,
        half: 1 << 62,
        most: (1 << 63) - 1,
    },
];

/// The circuit, but for line 1. `@` stands for the width, `%` for the width less one, `#` for the message bits and `&`
/// for the word of the inputs a and b.
const LINES: &str = "\
& a @
& b @
in e
inw n @
inbit c
inbit d
const three 3
constw two @ 2
add o0 a b
sub o1 a b
mul o2 a b
min o3 a b
max o4 a b
neg o5 a
and o6 a b
or o7 a b
xor o8 a b
not o9 a
and p0 c d
or p1 c d
xor p2 c d
not p3 c
shl q0 a 0
shl q1 a %
shl q2 a @
shl q3 a 255
shr q4 a 0
shr q5 a %
shr q6 a @
shr q7 a 255
shlv q8 a n
shrv q9 a n
eq r0 a b
ne r1 a b
lt r2 a b
le r3 a b
gt r4 a b
ge r5 a b
select r6 c a b
cast s0 # a
casts s1 # a
cast s2 60 a
casts s3 60 a
cast s4 # c
casts s5 # c
cast whole @ a
cast by @ b
div t0 whole by
rem t1 whole by
out e
out o0
out o1
out o2
out o3
out o4
out o5
out o6
out o7
out o8
out o9
out p0
out p1
out p2
out p3
out q0
out q1
out q2
out q3
out q4
out q5
out q6
out q7
out q8
out q9
out r0
out r1
out r2
out r3
out r4
out r5
out r6
out s0
out s1
out s2
out s3
out s4
out s5
out t0
out t1
out three
out two
out a
";

fn main(rt: HostRuntime) -> Result<()> {
    for shape in &SHAPES {
        for word in ["inw", "ins"] {
            let text = text_of(rt.alloc(), shape, word)?;
            let Ok(circuit) = parse(rt.alloc(), text.as_bytes()) else {
                bail!("the circuit of width {} was not read", shape.width);
            };
            for place in 0..16 {
                let row = row_of(rt.alloc(), &circuit, shape, place)?;
                println!(rt; "{word} {} {row}", shape.width)?;
            }
        }
    }
    Ok(())
}

/// The text of the circuit.
fn text_of(alloc: Global, shape: &Shape, word: &str) -> Result<String, AllocError> {
    let mut text = format!(in alloc; "bits {} {}\n", shape.space, shape.width)?;
    for letter in LINES.chars() {
        match letter {
            '@' => text.push_str(&format!(in alloc; "{}", shape.width)?)?,
            '%' => text.push_str(&format!(in alloc; "{}", shape.last)?)?,
            '#' => text.push_str(&format!(in alloc; "{}", shape.space)?)?,
            '&' => text.push_str(word)?,
            _ => text.push(letter)?,
        }
    }
    Ok(text)
}

/// The inputs a, b and n of a row, and the outputs.
fn row_of(alloc: Global, circuit: &Circuit, shape: &Shape, place: u32) -> Result<String> {
    let a = edge(shape, place / 4);
    let b = edge(shape, place % 4);
    let n = amount(shape, (place / 4 % 4 + place % 4) % 4);
    let inputs = [a, b, b, n, u64::from(place / 4 % 2), u64::from(place % 2)];
    if !takes(circuit, &inputs) {
        bail!(
            "the inputs of a circuit of width {} do not fit",
            shape.width
        );
    }
    let mut row = format!(in alloc; "{a} {b} {n} gives")?;
    for output in value(alloc, circuit, &inputs)? {
        row.push_str(&format!(in alloc; " {output}")?)?;
    }
    Ok(row)
}

/// The edges of a width: 0, 1, half of two to it, and the greatest number.
fn edge(shape: &Shape, place: u32) -> u64 {
    match place {
        0 => 0,
        1 => 1,
        2 => shape.half,
        _ => shape.most,
    }
}

/// Amounts to shift by: none, all bits but one, all bits, and the greatest number.
fn amount(shape: &Shape, place: u32) -> u64 {
    match place {
        0 => 0,
        1 => u64::from(shape.last),
        2 => u64::from(shape.width),
        _ => shape.most,
    }
}
