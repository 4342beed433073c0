//! Texts that the examples read and print.
use std::alloc::{AllocError, Global};

/// The parameter text of `rx-2-2` with another number of small key bits.
pub fn small_bits(alloc: Global, count: u32) -> Result<String, AllocError> {
    format!(in alloc;
        "message_bits 2\nglwe_dim 1\npoly_size 512\nlwe_dim {count}\npbs_base_log 12\npbs_level 2\nks_base_log 4\nks_level 6\nglwe_bound 17\nlwe_bound 20\n"
    )
}

/// A line for each width that blocks of `step` bits make up, and then the bits 1 and 0: with `int i` before the width
/// and a space between it and the bits, the lines of a value file; with `i` before and nothing between, the lines that
/// it is decrypted to. The bits of each number alternate.
pub fn widths(alloc: Global, step: u32, before: &str, between: &str) -> Result<String, AllocError> {
    let mut lines = String::new(alloc);
    for blocks in 1..33u32 {
        let bits = blocks.saturating_mul(step);
        if 0 < bits && bits <= 64 {
            let number = 0x5555_5555_5555_5555u64 >> (64 - bits);
            if between.is_empty() {
                write!(lines, "{before}{bits} {number}\n")?;
            } else {
                write!(lines, "{before}{bits}{between}{bits} {number}\n")?;
            }
        }
    }
    if between.is_empty() {
        lines.push_str("yes 1\nno 0\n")?;
    } else {
        lines.push_str("bit yes 1 1\nbit no 1 0\n")?;
    }
    Ok(lines)
}

/// The names of the ten fields of a set, in their order.
const FIELDS: [&str; 10] = [
    "message_bits",
    "glwe_dim",
    "poly_size",
    "lwe_dim",
    "pbs_base_log",
    "pbs_level",
    "ks_base_log",
    "ks_level",
    "glwe_bound",
    "lwe_bound",
];

/// The parameter text of ten numbers.
pub fn set_text(alloc: Global, numbers: &[u32; 10]) -> Result<String, AllocError> {
    let mut text = String::new(alloc);
    for (field, number) in FIELDS.iter().zip(numbers) {
        write!(text, "{field} {number}\n")?;
    }
    Ok(text)
}

/// The lines of a value file of so many bits, `b0` and on, and then another text.
pub fn bits_and(alloc: Global, count: u32, rest: &str) -> Result<String, AllocError> {
    let mut text = String::new(alloc);
    for place in 0..count {
        write!(text, "bit b{place} 1 0\n")?;
    }
    text.push_str(rest)?;
    Ok(text)
}
