//! A net over numbers: the digits of its inputs, and the numbers of its outputs.
ghost use Rattle.rx_net.specs.Legal.{Legal};

use rx_net::{Net, are_within, plain};
use std::alloc::{AllocError, Global};

/// The numbers of the outputs of a legal net for a number for each input; none where they are not within its inputs.
pub fn outputs_of(alloc: Global, net: &Net, numbers: &[u64]) -> Result<Option<Vec<u64>>, AllocError>
    requires { Legal net.now }
{
    let digits = input_digits(alloc, net, numbers)?;
    if !are_within(net, &digits) {
        return Ok(None);
    }
    let values = plain(alloc, net, &digits)?;
    let mut outputs = Vec::new(alloc);
    for output in net.outputs.as_slice() {
        outputs.push(number_in(net.space, &values, output.cells.as_slice()))?;
    }
    Ok(Some(outputs))
}

/// A number for each input of a net: in the first 64 rounds those of the edges of its bits, then drawn ones.
pub fn numbers_for(alloc: Global, net: &Net, round: u64) -> Result<Vec<u64>, AllocError> {
    let mut numbers = Vec::new(alloc);
    for (place, input) in net.inputs.as_slice().iter().enumerate() {
        numbers.push(number_for(round, place as u64, greatest(input.bits)))?;
    }
    Ok(numbers)
}

/// The number of an input in a round, at most the greatest: 0, 1, half of two to the bits, or the greatest; or drawn.
fn number_for(round: u64, place: u64, most: u64) -> u64 {
    if round >= 64 {
        return drawn(round.wrapping_mul(64).wrapping_add(place)) & most;
    }
    match (round >> (place % 3 * 2)) & 3 {
        0 => 0,
        1 => 1,
        2 => most ^ (most >> 1),
        _ => most,
    }
}

/// The digits of the inputs, input after input, each the least first.
fn input_digits(alloc: Global, net: &Net, numbers: &[u64]) -> Result<Vec<u8>, AllocError> {
    let mut digits = Vec::new(alloc);
    for (input, number) in net.inputs.as_slice().iter().zip(numbers) {
        let blocks = input.bits.checked_div(net.space).unwrap_or(0).max(1);
        push_digits(&mut digits, net.space, blocks, *number)?;
    }
    Ok(digits)
}

fn push_digits(
    digits: &mut Vec<u8>,
    space: u32,
    blocks: u32,
    number: u64,
) -> Result<(), AllocError> {
    let mut rest = number;
    for _place in 0..blocks {
        digits.push((rest & greatest(space) & 7) as u8)?;
        rest = rest.checked_shr(space).unwrap_or(0);
    }
    Ok(())
}

/// The number that some cells hold.
fn number_in(space: u32, values: &[u8], cells: &[u32]) -> u64 {
    let mut number = 0u64;
    for cell in cells.iter().rev() {
        let digit = values.get(*cell as usize).copied().unwrap_or(0);
        number = number.checked_shl(space).unwrap_or(0) | u64::from(digit);
    }
    number
}

/// The greatest number of so many bits, at most 64.
fn greatest(bits: u32) -> u64 {
    u64::MAX
        .checked_shr(64u32.saturating_sub(bits))
        .unwrap_or(0)
}

/// A step of splitmix64.
fn drawn(number: u64) -> u64 {
    let mut state = number.wrapping_mul(0x9E37_79B9_7F4A_7C15);
    state = (state ^ (state >> 30)).wrapping_mul(0xBF58_476D_1CE4_E5B9);
    state = (state ^ (state >> 27)).wrapping_mul(0x94D0_49BB_1331_11EB);
    state ^ (state >> 31)
}
