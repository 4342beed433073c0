//! Circuits and value files that the tests share.
use rx_store::MemStore;
use rx_tests_kit::no_files;
use std::alloc::{AllocError, Global};

/// The net file of the circuit that gives its one input back, of two bits. Source: `docs/FORMATS.md`, Nets.
pub const GIVEN_BACK: [u8; 27] = [
    0x52, 0x58, 0x4e, 0x31, 0x02, 0x01, 0x00, 0x01, 0x61, 0x00, 0x02, 0x03, 0x01, 0x00, 0x00, 0x00,
    0x00, 0x01, 0x00, 0x01, 0x61, 0x00, 0x02, 0x00, 0x00, 0x00, 0x00,
];

/// A store of circuits and of value files.
pub fn circuits(alloc: Global) -> Result<MemStore, AllocError> {
    let mut store = no_files(alloc);
    store.insert("back", b"bits 2 2\nin a\nout a\n")?;
    store.insert("back.values", b"int a 2 3\n")?;
    store.insert("bare", b"bits 2 2\n")?;
    store.insert("odd", b"bits 2 31\n")?;
    store.insert("wide", b"bits 3 9\nin a\nconst one 1\nadd s a one\nout s\n")?;
    store.insert("wide.values", b"int a 9 511\n")?;
    store.insert("sum", b"bits 2 8\nin a\nin b\nadd s a b\nout s\n")?;
    store.insert("sum.values", b"int a 8 200\nint b 8 100\n")?;
    store.insert("less.values", b"int a 8 200\nint c 7 100\n")?;
    store.insert("other.values", b"int a 8 200\nint b 6 60\n")?;
    store.insert("uneven.values", b"int a 8 200\nint b 8 100\nint c 7 100\n")?;
    store.insert("bad.values", b"int a 8 256\n")?;
    store.insert("long", b"bits 2 64\nin a\nin b\nadd s a b\nout s\n")?;
    store.insert(
        "long.values",
        b"int a 64 18446744073709551615\nint b 64 1\n",
    )?;
    store.insert("empty", b"")?;
    Ok(store)
}

/// Operations on numbers of four bits and on bits, with their inputs.
pub fn operations(alloc: Global) -> Result<MemStore, AllocError> {
    let mut store = no_files(alloc);
    store.insert(
        "c",
        b"bits 2 4\nin zero\nin one\nin x\nin y\ninbit t\nsub d zero one\nneg n zero\nmul p x y\nlt l x x\nle m x x\nmax g x y\nselect s t x y\nshlv v one y\nout d\nout n\nout p\nout l\nout m\nout g\nout s\nout v\n",
    )?;
    store.insert(
        "v",
        b"int zero 4 0\nint one 4 1\nint x 4 15\nint y 4 3\nbit t 1 1\n",
    )?;
    Ok(store)
}

/// Operations on numbers of eight bits, each with its name and its value, in the order of the outputs.
pub const WORKED: [(&str, &str); 29] = [
    ("sub zero one", "255"),
    ("neg zero", "0"),
    ("mul fifteen seventeen", "255"),
    ("mul sixteen sixteen", "0"),
    ("mul fifteen fifteen", "225"),
    ("const 255", "255"),
    ("and p q", "136"),
    ("or p q", "238"),
    ("xor p q", "102"),
    ("not zero", "255"),
    ("lt three three", "0"),
    ("le three three", "1"),
    ("gt three three", "0"),
    ("ge three three", "1"),
    ("eq three three", "1"),
    ("ne three three", "0"),
    ("max all zero", "255"),
    ("min all zero", "0"),
    ("shl big 9", "0"),
    ("shr big 3", "25"),
    ("shlv one seven", "128"),
    ("shlv one eight", "0"),
    ("shrv all all", "0"),
    ("select yes seven nine", "7"),
    ("select no seven nine", "9"),
    ("add big seven", "207"),
    ("sub seven big", "63"),
    ("gt big seven", "1"),
    ("mul all all", "1"),
];

/// The inputs of the worked operations.
const WORKED_INPUTS: [(&str, u32); 15] = [
    ("zero", 0),
    ("one", 1),
    ("three", 3),
    ("seven", 7),
    ("eight", 8),
    ("nine", 9),
    ("fifteen", 15),
    ("sixteen", 16),
    ("seventeen", 17),
    ("p", 204),
    ("q", 170),
    ("big", 200),
    ("all", 255),
    ("yes", 1),
    ("no", 0),
];

/// An input that is a bit.
fn is_bit(name: &str) -> bool {
    name == "yes" || name == "no"
}

/// The worked operations as the circuit `c` with the values `v`; the results are `r0`, `r1` and so on.
pub fn worked(alloc: Global) -> Result<MemStore, AllocError> {
    let mut text = String::from_str(alloc, "bits 2 8\n")?;
    let mut values = String::new(alloc);
    for (name, value) in WORKED_INPUTS {
        let (line, kind, bits) = if is_bit(name) {
            ("inbit", "bit", 1)
        } else {
            ("in", "int", 8)
        };
        write!(text, "{line} {name}\n")?;
        write!(values, "{kind} {name} {bits} {value}\n")?;
    }
    for (place, (operation, _)) in WORKED.iter().enumerate() {
        let (word, operands) = operation.split_once(' ').unwrap_or((operation, ""));
        write!(text, "{word} r{place} {operands}\n")?;
    }
    for place in 0..WORKED.len() {
        write!(text, "out r{place}\n")?;
    }
    let mut store = no_files(alloc);
    store.insert("c", text.as_bytes())?;
    store.insert("v", values.as_bytes())?;
    Ok(store)
}

/// The lines that the worked operations print.
pub fn worked_lines(alloc: Global) -> Result<String, AllocError> {
    let mut lines = String::new(alloc);
    for (place, (_, value)) in WORKED.iter().enumerate() {
        write!(lines, "r{place} {value}\n")?;
    }
    Ok(lines)
}

/// A quotient and a remainder of eight bits, with four value files.
pub fn quotients(alloc: Global) -> Result<MemStore, AllocError> {
    let mut store = no_files(alloc);
    store.insert(
        "c",
        b"bits 2 8\nin a\nin b\ndiv q a b\nrem r a b\nout q\nout r\n",
    )?;
    store.insert("more", b"int a 8 200\nint b 8 7\n")?;
    store.insert("none", b"int a 8 5\nint b 8 0\n")?;
    store.insert("less", b"int a 8 0\nint b 8 3\n")?;
    store.insert("same", b"int a 8 255\nint b 8 255\n")?;
    Ok(store)
}

/// A circuit of so many products of 64 bits.
pub fn products(alloc: Global, count: usize) -> Result<String, AllocError> {
    let mut text = String::from_str(alloc, "bits 2 64\nin a\n")?;
    for place in 0..count {
        write!(text, "mul p{place} a a\n")?;
    }
    Ok(text)
}
