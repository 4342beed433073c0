//! What a net gives in the clear, worked out job by job: the texts of the numbers that it is given, and of those that
//! it gives.
ghost use Rattle.std.specs.Prelude.{◌≡◌, ◌<◌, ◌≤◌, ◌⊎◌};
ghost use Rattle.rx_net.specs.Named.{IsNet};

use rx_net::{Job, Net, NetInput};
use rx_params::Kind;
use std::alloc::{AllocError, Global};

/// The word that a value file has for a kind.
fn word(kind: Kind) -> &'static str {
    match kind {
        Kind::Int => "int",
        Kind::Bit => "bit",
    }
}

/// The value file of numbers, one for each input of a net.
pub fn value_lines(alloc: Global, net: &Net, numbers: &[u64]) -> Result<String, AllocError> {
    let mut lines = String::new(alloc);
    for (input, number) in net.inputs.as_slice().iter().zip(numbers) {
        let word = word(input.kind);
        let name = input.name.as_str();
        write!(lines, "{word} {name} {} {number}\n", input.bits)?;
    }
    Ok(lines)
}

/// Adds the blocks of a number, the least first.
fn push_values(
    values: &mut Vec<u8>,
    space: u32,
    input: &NetInput,
    number: u64,
) -> Result<(), AllocError>
    requires { (space ≡ 2) ⊎ (space ≡ 3) }
{
    let base = base(space);
    let mut left = number;
    for _ in 0..input.kind.block_count(space, input.bits) {
        values.push((left % base) as u8)?;
        left /= base;
    }
    Ok(())
}

/// The numbers of the message bits.
fn base(space: u32) -> u64
    ensures low { 0 < result }
    ensures high { result ≤ 8 }
{
    if space == 2 { 4 } else { 8 }
}

/// The entry that a job looks up, over the values of the cells before it.
fn entry(job: &Job, values: &[u8]) -> u8 {
    let mut index = i64::from(job.constant);
    for term in job.terms.as_slice() {
        let value = values.get(term.cell as usize).copied().unwrap_or(0);
        let part = i64::from(term.weight).wrapping_mul(i64::from(value));
        index = index.wrapping_add(part);
    }
    let Ok(place) = usize::try_from(index) else {
        return 0;
    };
    job.table.as_slice().get(place).copied().unwrap_or(0)
}

/// The values of all cells, for numbers, one for each input.
fn cell_values(alloc: Global, net: &Net, numbers: &[u64]) -> Result<Vec<u8>, AllocError>
    requires { (net.now.space ≡ 2) ⊎ (net.now.space ≡ 3) }
{
    let mut values = Vec::new(alloc);
    for (input, number) in net.inputs.as_slice().iter().zip(numbers) {
        push_values(&mut values, net.space, input, *number)?;
    }
    for job in net.jobs.as_slice() {
        let value = entry(job, &values);
        values.push(value)?;
    }
    Ok(values)
}

/// The lines that the outputs of a net are decrypted to, for numbers, one for each input.
pub fn output_lines(alloc: Global, net: &Net, numbers: &[u64]) -> Result<String, AllocError>
    requires { IsNet net.now }
{
    let values = cell_values(alloc, net, numbers)?;
    let mut lines = String::new(alloc);
    for output in net.outputs.as_slice() {
        let number = number_of(&values, output.cells.as_slice(), net.space);
        let name = output.name.as_str();
        write!(lines, "{name} {number}\n")?;
    }
    Ok(lines)
}

/// The number whose blocks are the values of these cells, the least first.
fn number_of(values: &[u8], cells: &[u32], space: u32) -> u64 {
    let mut number = 0u64;
    for cell in cells.iter().rev() {
        let value = values.get(*cell as usize).copied().unwrap_or(0);
        number = number
            .wrapping_mul(base(space))
            .wrapping_add(u64::from(value));
    }
    number
}
