//! The degrees and noises of earlier cells, and what a weighted sum makes of them.
ghost use Rattle.std.specs.Prelude.{◌≡◌, ◌⊎◌, ◌+◌, ◌<◌, ◌≤◌, length, get_or};
ghost use Rattle.std.specs.List.{AllByRecursion};
ghost use Rattle.rx_net.specs.Limits.{most_terms};
ghost use Rattle.rx_net.specs.Tags.{low_of, high_of, noise_of, greatest_of, greatest_between};
ghost use Rattle.rx_net.specs.Cells.{input_cells, degrees_after, noises_after};

use crate::net::{Job, NetInput};
use crate::tag_sums::TagSums;
use crate::term::Term;

/// The tags of a cell.
#[derive(Clone, Copy)]
pub(crate) struct CellTags {
    /// The greatest number that the cell may hold.
    pub degree: u8,
    /// How many times the base noise of a set its noise may have.
    pub noise: u8,
}

/// The number of input cells, at most 2,048.
pub(crate) fn input_cells(space: u32, inputs: &[NetInput]) -> u32
    requires space { (space ≡ 2) ⊎ (space ≡ 3) }
    requires few { input_cells space inputs.now ≤ 2048 }
    ensures { result ≡ input_cells space inputs.now }
{
    let mut count = 0;
    for input in inputs {
        count += input.kind.block_count(space, input.bits);
    }
    count
}

/// The tags of a cell of the inputs or of the jobs. It is looked for among the inputs, of which there are at most 64.
pub(crate) fn tags_at(space: u32, inputs: &[NetInput], jobs: &[Job], cell: u32) -> CellTags
    requires space { (space ≡ 2) ⊎ (space ≡ 3) }
    requires there { cell < input_cells space inputs.now + length jobs.now }
    ensures degree { result.degree ≡ get_or (degrees_after space inputs.now jobs.now) cell 0 }
    ensures noise { result.noise ≡ get_or (noises_after space inputs.now jobs.now) cell 0 }
{
    let mut left = cell;
    for input in inputs {
        let count = input.kind.block_count(space, input.bits);
        if left < count {
            return CellTags {
                degree: input.degree,
                noise: input.noise,
            };
        }
        left -= count;
    }
    CellTags {
        degree: jobs[left as usize].degree,
        noise: 1,
    }
}

/// The tags of the sum of a constant and terms over cells of the inputs and of the jobs.
pub(crate) fn sum_tags(
    space: u32,
    inputs: &[NetInput],
    jobs: &[Job],
    terms: &[Term],
    constant: i16,
) -> TagSums
    requires space { (space ≡ 2) ⊎ (space ≡ 3) }
    requires few { length terms.now ≤ most_terms }
    requires forward { AllByRecursion (λ t. t.cell < input_cells space inputs.now + length jobs.now)
        terms.now }
    ensures low { result.low ≡ low_of (λ c. get_or (degrees_after space inputs.now jobs.now) c 0)
        constant terms.now }
    ensures high { result.high ≡ high_of (λ c. get_or (degrees_after space inputs.now jobs.now) c 0)
        constant terms.now }
    ensures noise { result.noise ≡ noise_of (λ c.
        get_or (noises_after space inputs.now jobs.now) c 0) terms.now }
{
    let mut sums = TagSums::of_constant(constant);
    for term in terms {
        let tags = tags_at(space, inputs, jobs, term.cell);
        sums = sums.with(term.weight, tags.degree, tags.noise);
    }
    sums
}

/// The greatest entry of a table at an index from `low` to `high`, both of which it has.
pub fn greatest_between(table: &[u8], low: usize, high: usize) -> u8
    requires order { low ≤ high }
    requires within { high < length table.now }
    ensures { result ≡ greatest_between table.now low high }
{
    greatest_of(&table[low..high + 1])
}

pub(crate) fn greatest_of(entries: &[u8]) -> u8
    ensures { result ≡ greatest_of entries.now }
{
    let mut most = 0;
    for entry in entries {
        if *entry > most {
            most = *entry;
        }
    }
    most
}
