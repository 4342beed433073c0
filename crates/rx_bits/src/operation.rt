//! The bitwise operations, and tables of them.
ghost use Rattle.std.specs.Prelude.{◌≡◌, ◌⊎◌, ◌<◌, ◌≤◌, ◌+◌, ◌*◌, ◌/◌, ◌%◌, ◌^◌, IfOk};
ghost use Rattle.rx_plan.specs.Tables.{HasEntries};
ghost use Rattle.rx_bits.specs.Bits.{bitwise};

use rx_plan::table_of;
use std::alloc::{AllocError, Global};

/// An operation bit by bit.
#[derive(Clone, Copy)]
pub enum Operation {
    And,
    Or,
    Xor,
}

impl Operation {
    fn of(self, x: u8, y: u8) -> u8
        ensures { result ≡ bitwise self x y }
    {
        match self {
            Operation::And => x & y,
            Operation::Or => x | y,
            Operation::Xor => x ^ y,
        }
    }
}

/// The table of an operation on the two digits of each index.
pub fn operation_table(
    alloc: Global,
    space: u32,
    base: u8,
    operation: Operation,
) -> Result<Vec<u8>, AllocError>
    requires space { (space ≡ 2) ⊎ (space ≡ 3) }
    requires base { 0 < base }
    ensures { IfOk result (λ table. HasEntries space
        (λ i. bitwise operation (i / base % base) (i % base)) table.items) }
{
    table_of(
        alloc,
        space,
        |i: u8| -> u8
            requires { 0 < base }
            ensures { result ≡ bitwise operation (i / base % base) (i % base) }
        { operation.of(i / base % base, i % base) },
    )
}
