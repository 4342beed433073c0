//! Rounds that bring rows down to two, as carry-save adders do (Wallace, A Suggestion for a Fast Multiplier, 1964): a group of
//! rows gives a row of its digits and a row of its carries.
ghost use Rattle.std.specs.Prelude.{◌≡◌, ◌⊎◌, ◌≤◌, ◌+◌, ◌-◌, ◌*◌, ◌%◌, ◌^◌, ℕ, List, IfOk, length};
ghost use Rattle.rx_params.specs.Derived.{noise_limit};
ghost use Rattle.rx_net.specs.Growth.{Extends};
ghost use Rattle.rx_costs.specs.Rounds.{groups, rounds, round_jobs};
ghost use Rattle.rx_plan.specs.Values.{AreInputs};
ghost use Rattle.rx_plan.specs.Planned.{Each, AreBlocks, HasRoom, Lays};
ghost use Rattle.rx_plan.specs.Rows.{rows_number};
ghost use Rattle.rx_mul.specs.Rows.{IsShared};

use rx_net::NetPen;
use rx_plan::{carry_row, digit_row, unit_of};
use std::alloc::AllocError;

/// What all rounds share.
#[derive(Drop)]
pub(crate) struct Shared {
    /// The blocks of a row.
    pub(crate) width: usize,
    /// A cell that is 0.
    pub(crate) nought: u32,
    /// The table of digits.
    pub(crate) digits: Vec<u8>,
    /// The table of carries.
    pub(crate) carries: Vec<u8>,
}

/// Two rows in place of three or more, by rounds.
pub(crate) fn reduce(
    pen: &mut NetPen,
    shared: &Shared,
    rows: Vec<u32>,
    count: usize,
) -> Result<Vec<u32>, AllocError>
    requires shared { IsShared pen.old shared.now }
    requires some { 3 ≤ count }
    requires few { count ≤ 2 ^ 20 }
    requires size { length rows.items ≡ count * shared.now.width }
    requires rows { AreBlocks pen.old rows.items }
    requires room { HasRoom pen.old
        (round_jobs shared.now.width (noise_limit pen.old.space) count) }
    ensures kept { Extends pen.old pen.new }
    ensures planned { IfOk result (λ two. Lays pen.old pen.new two.items (2 * shared.now.width)
        (round_jobs shared.now.width (noise_limit pen.old.space) count
        - rounds (noise_limit pen.old.space) count)
        (rounds (noise_limit pen.old.space) count) (Each rows.items)) }
    ensures value { IfOk result (λ two. (xs : List ℕ) → AreInputs pen.old xs
        → rows_number (2 ^ pen.old.space) pen.new two.items shared.now.width 2 xs
        % (2 ^ pen.old.space) ^ shared.now.width
        ≡ rows_number (2 ^ pen.old.space) pen.old rows.items shared.now.width count xs
        % (2 ^ pen.old.space) ^ shared.now.width) }
{
    let most = usize::from(unit_of(pen.space())) + 1;
    let mut rows = rows;
    let mut count = count;
    while count > 2 {
        rows = round(pen, shared, &rows, count)?;
        count = 2 * count.div_ceil(most);
    }
    Ok(rows)
}

/// One round: two rows in place of each group of rows.
fn round(
    pen: &mut NetPen,
    shared: &Shared,
    rows: &[u32],
    count: usize,
) -> Result<Vec<u32>, AllocError>
    requires shared { IsShared pen.old shared.now }
    requires few { count ≤ 2 ^ 20 }
    requires size { length rows.now ≡ count * shared.now.width }
    requires rows { AreBlocks pen.old rows.now }
    requires room { HasRoom pen.old
        (groups (noise_limit pen.old.space) count * (2 * shared.now.width - 1)) }
    ensures kept { Extends pen.old pen.new }
    ensures planned { IfOk result (λ next. Lays pen.old pen.new next.items
        (2 * groups (noise_limit pen.old.space) count * shared.now.width)
        (groups (noise_limit pen.old.space) count * (2 * shared.now.width - 1)) 1
        (Each rows.now)) }
    ensures value { IfOk result (λ next. (xs : List ℕ) → AreInputs pen.old xs
        → rows_number (2 ^ pen.old.space) pen.new next.items shared.now.width
        (2 * groups (noise_limit pen.old.space) count) xs
        % (2 ^ pen.old.space) ^ shared.now.width
        ≡ rows_number (2 ^ pen.old.space) pen.old rows.now shared.now.width count xs
        % (2 ^ pen.old.space) ^ shared.now.width) }
{
    let most = usize::from(unit_of(pen.space())) + 1;
    let turns = count.div_ceil(most);
    let mut next = Vec::new(pen.allocator());
    let mut first = 0;
    for _g in 0..turns {
        let last = group_end(first, most, count);
        let members = &rows[first * shared.width..last * shared.width];
        let cells = group(pen, shared, members, last - first)?;
        next.extend_from_slice(&cells)?;
        first = last;
    }
    Ok(next)
}

/// The end of the group that begins at `first`.
fn group_end(first: usize, most: usize, count: usize) -> usize
    requires { first ≤ count }
    ensures order { first ≤ result }
    ensures group { result ≤ first + most }
    ensures within { result ≤ count }
    ensures ahead { (count ≤ result) ⊎ (first + most ≤ result) }
{
    if count - first <= most {
        count
    } else {
        first + most
    }
}

/// Two rows in place of a group of rows: its digits, and its carries.
fn group(
    pen: &mut NetPen,
    shared: &Shared,
    rows: &[u32],
    count: usize,
) -> Result<Vec<u32>, AllocError>
    requires shared { IsShared pen.old shared.now }
    requires few { count ≤ noise_limit pen.old.space }
    requires size { length rows.now ≡ count * shared.now.width }
    requires rows { AreBlocks pen.old rows.now }
    requires room { HasRoom pen.old (2 * shared.now.width - 1) }
    ensures kept { Extends pen.old pen.new }
    ensures planned { IfOk result (λ two. Lays pen.old pen.new two.items (2 * shared.now.width)
        (2 * shared.now.width - 1) 1 (Each rows.now)) }
    ensures value { IfOk result (λ two. (xs : List ℕ) → AreInputs pen.old xs
        → rows_number (2 ^ pen.old.space) pen.new two.items shared.now.width 2 xs
        % (2 ^ pen.old.space) ^ shared.now.width
        ≡ rows_number (2 ^ pen.old.space) pen.old rows.now shared.now.width count xs
        % (2 ^ pen.old.space) ^ shared.now.width) }
{
    let _space = pen.space();
    let width = shared.width;
    let mut cells = digit_row(pen, rows, width, count, shared.nought, &shared.digits)?;
    let high = carry_row(pen, rows, width, count, shared.nought, &shared.carries)?;
    cells.extend_from_slice(&high)?;
    Ok(cells)
}
