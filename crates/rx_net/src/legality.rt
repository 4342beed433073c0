//! The check that a net is legal.
ghost use Rattle.std.specs.Prelude.{◌≡◌, ◌⊎◌, ◌↔◌, ℕ, ℤ, pos, ◌≤ℤ◌, ◌+◌, ◌*◌, ◌^◌, ◌<◌, ◌≤◌, ◌==◌, ◌&&◌, ◌||◌, nat_lt, nat_le, not, [], length, get_or, IsOk, IfOk};
ghost use Rattle.std.specs.List.{list_all};
ghost use Rattle.rx_laws.specs.Decode.{plaintexts};
ghost use Rattle.rx_params.specs.Acceptance.{answered};
ghost use Rattle.rx_net.specs.declared.net.Job.{Job};
ghost use Rattle.rx_net.specs.Limits.{most_terms, most_jobs};
ghost use Rattle.rx_net.specs.Tags.{natural, greatest_between};
ghost use Rattle.rx_net.specs.Cells.{input_cells, cell_count, degree, degrees_after};
ghost use Rattle.rx_net.specs.Legal.{Legal, InTurn, WithinLimits, is_input, is_output, has_input_tags, names_input, names_output, are_cells, reached as reached_of};
ghost use Rattle.rx_net.specs.Faults.{TellsFault, first_failing, first_in_turn, fault_of, limit, limit_fault, input_fault, terms_fault, new_fault, sum_fault, job_fault, output_fault};

use crate::fault::NetFault;
use crate::net::{Job, Net, NetInput, NetOutput};
use crate::tag_sums::TagSums;
use crate::tags::{greatest_between, input_cells, sum_tags, tags_at};
use crate::term::Term;
use rx_params::{Name, noise_limit, plaintexts};

/// The most inputs of a net.
pub const MOST_INPUTS: usize = 64;

/// The most outputs of a net.
pub const MOST_OUTPUTS: usize = 64;

/// The most terms of a job.
pub const MOST_TERMS: usize = 16;

/// The most jobs of a net.
pub const MOST_JOBS: usize = 65_536;

/// Ok exactly where the net is legal, else its first fault: a limit, the fields in their order; then a fault of a
/// job, job after job; then one of an output.
pub fn legal(net: &Net) -> Result<(), NetFault>
    ensures exact { result ≡ answered (fault_of net.now) tt }
    ensures legal { IsOk result ↔ Legal net.now }
{
    let inputs = net.inputs.as_slice();
    let jobs = net.jobs.as_slice();
    check_limits(net.space, inputs, jobs, net.outputs.as_slice())?;
    check_jobs(net.space, inputs, jobs)?;
    check_outputs(net)
}

fn check_limits(
    space: u32,
    inputs: &[NetInput],
    jobs: &[Job],
    outputs: &[NetOutput],
) -> Result<(), NetFault>
    ensures { TellsFault result (limit_fault space inputs.now jobs.now outputs.now) }
{
    check_limit(is_space(space), 1, space as usize)?;
    check_limit(inputs.len() <= MOST_INPUTS, 2, inputs.len())?;
    check_inputs(space, inputs)?;
    check_limit(jobs.len() <= MOST_JOBS, 4, jobs.len())?;
    check_terms(jobs)?;
    check_limit(outputs.len() <= MOST_OUTPUTS, 6, outputs.len())
}

fn is_space(space: u32) -> bool
    ensures { result ≡ ((space == 2) || (space == 3)) }
{
    space == 2 || space == 3
}

pub(crate) fn check_limit(holds: bool, field: u8, value: usize) -> Result<(), NetFault>
    ensures { TellsFault result (limit holds field value) }
{
    if holds {
        Ok(())
    } else {
        Err(NetFault::Limit {
            field,
            value: value as u64,
        })
    }
}

fn check_inputs(space: u32, inputs: &[NetInput]) -> Result<(), NetFault>
    requires { (space ≡ 2) ⊎ (space ≡ 3) }
    ensures { TellsFault result (first_in_turn (input_fault space) [] inputs.now) }
{
    for (number, input) in inputs.iter().enumerate() {
        if !is_input(space, &inputs[..number], input) {
            return Err(NetFault::Limit {
                field: 3,
                value: number as u64,
            });
        }
    }
    Ok(())
}

fn check_terms(jobs: &[Job]) -> Result<(), NetFault>
    ensures { TellsFault result (first_in_turn terms_fault [] jobs.now) }
{
    for (number, job) in jobs.iter().enumerate() {
        if job.terms.as_slice().len() > MOST_TERMS {
            return Err(NetFault::Limit {
                field: 5,
                value: number as u64,
            });
        }
    }
    Ok(())
}

/// Whether an input may follow those before it.
pub(crate) fn is_input(space: u32, before: &[NetInput], input: &NetInput) -> bool
    requires { (space ≡ 2) ⊎ (space ≡ 3) }
    ensures { result ≡ is_input space before.now input.now }
{
    let has_form = input.kind.is_form(space, input.bits);
    let has_tags = has_input_tags(space, input);
    let is_named = names_input(&input.name, before);
    has_form && has_tags && !is_named
}

fn has_input_tags(space: u32, input: &NetInput) -> bool
    requires { (space ≡ 2) ⊎ (space ≡ 3) }
    ensures { result ≡ has_input_tags space input.now }
{
    let most = input.kind.greatest(space);
    input.degree <= most && 1 <= input.noise && input.noise <= noise_limit(space)
}

fn names_input(name: &Name, inputs: &[NetInput]) -> bool
    ensures { result ≡ names_input name.now inputs.now }
{
    inputs.iter().any(|input| input.name == *name)
}

fn check_jobs(space: u32, inputs: &[NetInput], jobs: &[Job]) -> Result<(), NetFault>
    requires space { (space ≡ 2) ⊎ (space ≡ 3) }
    requires few_cells { input_cells space inputs.now ≤ 2048 }
    requires few_jobs { length jobs.now ≤ most_jobs }
    requires few_terms { InTurn (λ _ (j : Job). length j.terms ≤ most_terms) [] jobs.now }
    ensures { TellsFault result (first_in_turn (job_fault space inputs.now) [] jobs.now) }
{
    for (number, job) in jobs.iter().enumerate() {
        check_job(space, inputs, &jobs[..number], job)?;
    }
    Ok(())
}

/// Tests a job that follows those before it.
fn check_job(space: u32, inputs: &[NetInput], before: &[Job], job: &Job) -> Result<(), NetFault>
    requires space { (space ≡ 2) ⊎ (space ≡ 3) }
    requires few_cells { input_cells space inputs.now ≤ 2048 }
    requires few_jobs { length before.now ≤ most_jobs }
    requires few_terms { length job.now.terms ≤ most_terms }
    ensures { TellsFault result (job_fault space inputs.now before.now job.now) }
{
    let terms = job.terms.as_slice();
    let table = job.table.as_slice();
    let reached = reach(space, inputs, before, terms, job.constant, table)?;
    if job.degree == reached {
        Ok(())
    } else {
        Err(NetFault::Degree {
            job: before.len() as u32,
            declared: job.degree,
            reached,
        })
    }
}

/// The degree of a new job that follows those before it, or its first fault.
pub(crate) fn reach(
    space: u32,
    inputs: &[NetInput],
    before: &[Job],
    terms: &[Term],
    constant: i16,
    table: &[u8],
) -> Result<u8, NetFault>
    requires space { (space ≡ 2) ⊎ (space ≡ 3) }
    requires few_cells { input_cells space inputs.now ≤ 2048 }
    requires few_jobs { length before.now ≤ most_jobs }
    requires few_terms { length terms.now ≤ most_terms }
    ensures fault { TellsFault result (new_fault space inputs.now before.now terms.now
        constant table.now) }
    ensures degree { IfOk result (λ reached. reached
        ≡ reached_of (λ c. get_or (degrees_after space inputs.now before.now) c 0) terms.now
        constant table.now) }
{
    let job = before.len() as u32;
    let count = input_cells(space, inputs) + job;
    if are_earlier(count, terms) {
        let sum = sum_tags(space, inputs, before, terms, constant);
        check_sum(space, job, sum, table)
    } else {
        Err(NetFault::Forward { job })
    }
}

fn are_earlier(count: u32, terms: &[Term]) -> bool
    ensures { result ≡ list_all (λ t. nat_lt t.cell count) terms.now }
{
    terms.iter().all(|term| term.cell < count)
}

/// The greatest entry that a sum can reach in a table, or the first fault of the two.
fn check_sum(space: u32, job: u32, sum: TagSums, table: &[u8]) -> Result<u8, NetFault>
    requires space { (space ≡ 2) ⊎ (space ≡ 3) }
    requires order { sum.low ≤ℤ sum.high }
    ensures fault { TellsFault result (sum_fault space job sum.low sum.high sum.noise table.now) }
    ensures degree { IfOk result (λ reached.
        reached ≡ greatest_between table.now (natural sum.low) (natural sum.high)) }
{
    if sum.low < 0 || sum.high >= i32::from(plaintexts(space)) {
        Err(NetFault::Range {
            job,
            low: sum.low,
            high: sum.high,
        })
    } else if sum.noise > u32::from(noise_limit(space)) {
        Err(NetFault::Noise {
            job,
            sum: sum.noise,
        })
    } else if !is_table(space, table) {
        Err(NetFault::Table { job })
    } else {
        Ok(greatest_between(table, sum.low as usize, sum.high as usize))
    }
}

/// Whether a table has an entry for each index, and no entry is past the last index.
fn is_table(space: u32, table: &[u8]) -> bool
    requires { (space ≡ 2) ⊎ (space ≡ 3) }
    ensures { result ≡ ((length table.now == plaintexts space) && list_all (λ entry.
        nat_lt entry (plaintexts space)) table.now) }
{
    let count = plaintexts(space);
    table.len() == usize::from(count) && are_below(count, table)
}

fn are_below(limit: u8, entries: &[u8]) -> bool
    ensures { result ≡ list_all (λ entry. nat_lt entry limit) entries.now }
{
    entries.iter().all(|entry| *entry < limit)
}

fn check_outputs(net: &Net) -> Result<(), NetFault>
    requires { WithinLimits net.now }
    ensures { TellsFault result (first_in_turn
        (output_fault net.now.space (cell_count net.now) (degree net.now)) [] net.now.outputs) }
{
    let outputs = net.outputs.as_slice();
    for (number, output) in outputs.iter().enumerate() {
        if !is_output(net, &outputs[..number], output) {
            return Err(NetFault::Output {
                index: number as u32,
            });
        }
    }
    Ok(())
}

/// Whether an output may follow those before it.
pub(crate) fn is_output(net: &Net, before: &[NetOutput], output: &NetOutput) -> bool
    requires { WithinLimits net.now }
    ensures { result ≡ is_output net.now.space (cell_count net.now) (degree net.now)
        before.now output.now }
{
    let cells = output.cells.as_slice();
    let has_form = output.kind.is_form(net.space, output.bits);
    let count = output.kind.block_count(net.space, output.bits);
    let is_named = names_output(&output.name, before);
    let have_degrees = are_cells(net, output.kind.greatest(net.space), cells);
    has_form && cells.len() == count as usize && !is_named && have_degrees
}

fn names_output(name: &Name, outputs: &[NetOutput]) -> bool
    ensures { result ≡ names_output name.now outputs.now }
{
    outputs.iter().any(|output| output.name == *name)
}

/// Whether each of these is a cell whose degree is at most `most`.
fn are_cells(net: &Net, most: u8, cells: &[u32]) -> bool
    requires { WithinLimits net.now }
    ensures { result ≡ are_cells (cell_count net.now) (degree net.now) most cells.now }
{
    cells.iter().all(|cell| is_output_cell(net, most, *cell))
}

fn is_output_cell(net: &Net, most: u8, cell: u32) -> bool
    requires { WithinLimits net.now }
    ensures { result ≡ (nat_lt cell (cell_count net.now) && nat_le (degree net.now cell) most) }
{
    cell < cell_count(net) && degree_at(net, cell) <= most
}

/// The number of cells.
pub(crate) fn cell_count(net: &Net) -> u32
    requires { WithinLimits net.now }
    ensures { result ≡ cell_count net.now }
{
    input_cells(net.space, net.inputs.as_slice()) + net.jobs.as_slice().len() as u32
}

/// The degree of a cell.
pub(crate) fn degree_at(net: &Net, cell: u32) -> u8
    requires limits { WithinLimits net.now }
    requires there { cell < cell_count net.now }
    ensures { result ≡ degree net.now cell }
{
    tags_at(net.space, net.inputs.as_slice(), net.jobs.as_slice(), cell).degree
}
