//! Logarithms, and the rounds of a product.
ghost use Rattle.std.specs.Prelude.{◌≡◌, ◌≤◌, ◌<◌, ◌*◌, ◌^◌};
ghost use Rattle.rx_costs.specs.Logs.{log_up};
ghost use Rattle.rx_costs.specs.Rounds.{groups, rounds, round_jobs};

/// The least exponent whose power of the base is the number or more; 0 for the numbers 0 and 1.
pub fn log_up(base: u32, number: u32) -> u32
    requires { 2 ≤ base }
    ensures value { result ≡ log_up base number }
    ensures few { result ≤ 32 }
{
    let mut exponent = 0;
    let mut power: u64 = 1;
    while power < u64::from(number) {
        power *= u64::from(base);
        exponent += 1;
    }
    exponent
}

/// The rounds that bring `count` terms down to two, where a group has at most `most` terms, 5 or more.
pub fn rounds(most: u32, count: u32) -> u32
    requires { 5 ≤ most }
    ensures value { result ≡ rounds most count }
    ensures few { result ≤ count }
{
    let mut terms = count;
    let mut made = 0;
    while terms > 2 {
        terms = next_terms(most, terms);
        made += 1;
    }
    made
}

/// The jobs of these rounds: two for each group of each of at most 64 columns of at most 128 terms.
pub fn round_jobs(columns: u32, most: u32, count: u32) -> u64
    requires groups { 5 ≤ most }
    requires few_columns { columns ≤ 64 }
    requires few_terms { count ≤ 128 }
    ensures value { result ≡ round_jobs columns most count }
    ensures few { result ≤ 2 ^ 20 }
{
    let mut terms = count;
    let mut jobs = 0;
    while terms > 2 {
        terms = next_terms(most, terms);
        jobs += u64::from(columns) * u64::from(terms);
    }
    jobs
}

/// Two terms for each group of three terms or more.
#[tactic(auto, unfolding(crate::specs::Rounds::groups), using(crate::proofs::Groupings::groups_fewer))]
fn next_terms(most: u32, terms: u32) -> u32
    requires groups { 5 ≤ most }
    requires some { 2 < terms }
    ensures value { result ≡ 2 * groups most terms }
    ensures fewer { result < terms }
{
    2 * terms.div_ceil(most)
}
