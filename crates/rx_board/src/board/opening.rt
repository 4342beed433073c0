//! The words of a board at the start.
ghost use Rattle.std.specs.Prelude.{IfOk, replicate, ◌≡◌, ◌+◌, ◌*◌, ◌<◌, ◌≤◌, length};
ghost use Rattle.rx_net.specs.Legal.{Legal};
ghost use Rattle.rx_uses.specs.Uses.{IsUsesOf};
ghost use Rattle.rx_board.specs.Rule.{input_count, Opening};

use rx_net::Net;
use rx_uses::{Uses, input_cells};
use std::alloc::{AllocError, Global};

/// The number of input cells of a net, at most 2,048, which is the cell of job 0.
pub(super) fn first_cell(net: &Net) -> u32
    requires { Legal net.now }
    ensures value { result ≡ input_count net.now }
    ensures few { result ≤ 2048 }
{
    input_cells(net)
}

/// How many words a board has.
fn word_count(jobs: usize, width: usize) -> usize
    requires { 1 + jobs * (width + 2) ≤ 33554432 }
    ensures { result ≡ 1 + jobs * (width + 2) }
{
    // No jobs put no bound on the width.
    if jobs == 0 { 1 } else { 1 + jobs * (width + 2) }
}

/// So many words that are 0.
fn zeros(alloc: Global, count: usize) -> Result<Vec<u64>, AllocError>
    ensures { IfOk result (λ v. v.items ≡ replicate count 0) }
{
    vec![in alloc; 0; count]
}

/// Counts the uses of a job's cell, each at the count of the job whose it is.
fn count_uses(words: &mut [u64], net: &Net, uses: &Uses, first_cell: u32, job: u32, width: usize)
    requires net { Legal net.now }
    requires uses { IsUsesOf net.now uses.now }
    requires first { first_cell ≡ input_count net.now }
    requires few { first_cell ≤ 2048 }
    requires room { 1 + length net.now.jobs * (width + 2) ≤ 33554432 }
    requires job { job < length net.now.jobs }
    requires words { Opening net.now width job 0 words.old }
    ensures { Opening net.now width (job + 1) 0 words.new }
{
    let mut done = 0u32;
    let mut next = uses.first(first_cell + job);
    while let Some(node) = next {
        let place = 1 + (uses.owner(node) as usize * (width + 2) + 1);
        words[place] += 1;
        next = uses.next(node);
        done += 1;
    }
}

/// The words of a board on which no job was claimed: all are 0 but the counts, and the count of each job is the number
/// of its uses of job cells.
pub(super) fn opening_words(
    alloc: Global,
    net: &Net,
    uses: &Uses,
    first_cell: u32,
    width: usize,
) -> Result<Vec<u64>, AllocError>
    requires net { Legal net.now }
    requires uses { IsUsesOf net.now uses.now }
    requires first { first_cell ≡ input_count net.now }
    requires few { first_cell ≤ 2048 }
    requires room { 1 + length net.now.jobs * (width + 2) ≤ 33554432 }
    ensures { IfOk result (λ v. Opening net.now width (length net.now.jobs) 0 v.items) }
{
    let count = net.jobs.as_slice().len();
    let mut words = zeros(alloc, word_count(count, width))?;
    for job in 0..count as u32 {
        count_uses(words.as_mut_slice(), net, uses, first_cell, job, width);
    }
    Ok(words)
}
