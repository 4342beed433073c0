//! A net is made input by input, job by job and output by output, and is legal at every moment.
ghost use Rattle.std.specs.Prelude.{◌≡◌, ◌⊎◌, pos, ◌≤ℤ◌, ◌+◌, ◌<◌, ◌≤◌, Some, None, [], ◌∷◌, ◌++◌, length, IfOk, OnErr, OnOk};
ghost use Rattle.rx_net.specs.declared.net.Job.{Job};
ghost use Rattle.rx_net.specs.Limits.{most_terms, most_jobs};
ghost use Rattle.rx_net.specs.Tags.{natural, greatest_between};
ghost use Rattle.rx_net.specs.Cells.{cell_count, degree, noise};
ghost use Rattle.rx_net.specs.Legal.{Legal, JobFits, IsBounded, reached};
ghost use Rattle.rx_net.specs.Named.{IsNet};
ghost use Rattle.rx_net.specs.Faults.{TellsFault, fault_of};
ghost use Rattle.rx_net.specs.Pen.{Tells, empty_net, with_input, with_job, with_output};
ghost use Rattle.rx_net.specs.Growth.{AddsJob};

use crate::fault::NetFault;
use crate::legality::{
    MOST_INPUTS, MOST_JOBS, MOST_OUTPUTS, MOST_TERMS, cell_count, check_limit, degree_at, is_input,
    is_output, reach,
};
use crate::lists::{Cells, Jobs, NetInputs, NetOutputs, Table, Terms};
use crate::net::{Job, Net, NetInput, NetOutput};
use crate::tags::{greatest_between, sum_tags};
use crate::term::Term;
use rx_params::{Kind, Name};
use std::alloc::{AllocError, Global};
use std::marker::Model;
use thiserror::Error;

/// Why a pen refuses an addition.
#[derive(Clone, Copy, Debug, PartialEq, Eq, Error)]
pub enum PenError {
    /// The first fault of the net with the addition.
    #[error("the net would not be legal: {0}")]
    Net(NetFault),
    /// Memory ran out.
    #[error("out of memory")]
    Memory,
}

impl From<AllocError> for PenError {
    ghost use Rattle.rx_net.specs.declared.pen.PenError.TheVariants.{Memory};

    ghost from_gives = { λ _ e. e ≡ Memory };

    fn from(_: AllocError) -> PenError {
        PenError::Memory
    }
}

impl From<NetFault> for PenError {
    ghost use Rattle.rx_net.specs.declared.pen.PenError.TheVariants.{Net as Refusal};

    ghost from_gives = { λ fault e. e ≡ Refusal fault };

    fn from(fault: NetFault) -> PenError {
        PenError::Net(fault)
    }
}

/// Makes a net, which after each call is legal and has names that are names. Contracts see a pen as its net. After a
/// refusal the pen is as before.
#[derive(Drop)]
pub struct NetPen {
    alloc: Global,
    net: Net,
}

impl Model for NetPen {
    ghost use Rattle.rx_net.specs.declared.net.Net.{Net};
    ghost use Rattle.rx_net.specs.Named.{IsNet};

    ghost Value = { Net };

    ghost view = { λ p. p.net };

    ghost invariant = { λ p. IsNet p.net };
}

impl NetPen {
    /// A pen of a net of this space, 2 or 3, without inputs, jobs and outputs.
    pub fn new(alloc: Global, space: u32) -> NetPen
        requires { (space ≡ 2) ⊎ (space ≡ 3) }
        ensures { result ≡ empty_net space }
    {
        NetPen {
            alloc,
            net: Net {
                space,
                inputs: NetInputs::from_vec(Vec::new(alloc)),
                jobs: Jobs::from_vec(Vec::new(alloc)),
                outputs: NetOutputs::from_vec(Vec::new(alloc)),
            },
        }
    }

    /// The message bits of a block, 2 or 3.
    pub fn space(&self) -> u32
        ensures value { result ≡ self.now.space }
        ensures known { (result ≡ 2) ⊎ (result ≡ 3) }
        ensures legal { Legal self.now }
        ensures bounded { IsBounded self.now }
    {
        self.net.space
    }

    /// The number of cells so far, at most 67,584.
    pub fn cells(&self) -> u32
        ensures { result ≡ cell_count self.now }
    {
        cell_count(&self.net)
    }

    /// The degree of a cell, by its number below `cells()`.
    pub fn degree(&self, cell: u32) -> u8
        requires { cell < cell_count self.now }
        ensures { result ≡ degree self.now cell }
    {
        degree_at(&self.net, cell)
    }

    /// The allocator of the pen's lists.
    pub fn allocator(&self) -> Global {
        self.alloc
    }

    /// The net.
    pub fn finish(self) -> Net
        ensures value { result ≡ self }
        ensures legal { Legal result }
        ensures named { IsNet result }
    {
        let NetPen { alloc: _, net } = self;
        net
    }

    /// Adds an input, and answers its first cell. No job was made yet. The faults are `Limit` of field 2, where there
    /// are 64 inputs already, and of field 3, for what is wrong with the input.
    pub fn input(&mut self, input: NetInput) -> Result<u32, PenError>
        requires { self.old.jobs ≡ [] }
        ensures added { IfOk result (λ _. self.new ≡ with_input self.old input) }
        ensures cell { IfOk result (λ cell. cell ≡ cell_count self.old) }
        ensures fault { Tells result (fault_of (with_input self.old input)) }
        ensures unchanged { OnErr result (self.new ≡ self.old) }
    {
        let cell = cell_count(&self.net);
        check_input(&self.net, &input)?;
        // The input's name is one by its own contract.
        input.name.as_bytes();
        self.net.inputs.push(input)?;
        Ok(cell)
    }

    /// Adds a job, which declares the degree that it reaches, and answers its cell. The faults are, in this order,
    /// `Limit` of field 4, where there are 65,536 jobs already, and of field 5, for more than 16 terms, `Forward`,
    /// `Range`, `Noise` and `Table`.
    pub fn job(&mut self, terms: &[Term], constant: i16, table: &[u8]) -> Result<u32, PenError>
        ensures added { IfOk result (λ _. self.new
            ≡ with_job self.old terms.now constant table.now) }
        ensures adds { IfOk result (λ cell.
            AddsJob self.old self.new cell terms.now constant table.now) }
        ensures fault { Tells result (fault_of (with_job self.old terms.now constant table.now)) }
        ensures unchanged { OnErr result (self.new ≡ self.old) }
    {
        let cell = cell_count(&self.net);
        let degree = check_job(&self.net, terms, constant, table)?;
        add_job(self.alloc, &mut self.net, terms, constant, table, degree)?;
        Ok(cell)
    }

    /// Adds a job that is known to be lawful, and answers its cell. The only error is want of memory, after which the
    /// pen is as before.
    pub fn place(&mut self, terms: &[Term], constant: i16, table: &[u8]) -> Result<u32, AllocError>
        requires room { length self.old.jobs < most_jobs }
        requires few { length terms.now ≤ most_terms }
        requires fits { JobFits self.old.space (cell_count self.old) (degree self.old)
            (noise self.old) terms.now constant table.now }
        ensures added { IfOk result (λ _. self.new
            ≡ with_job self.old terms.now constant table.now) }
        ensures adds { IfOk result (λ cell.
            AddsJob self.old self.new cell terms.now constant table.now) }
        ensures unchanged { OnErr result (self.new ≡ self.old) }
    {
        let cell = cell_count(&self.net);
        let degree = known_degree(&self.net, terms, constant, table);
        add_job(self.alloc, &mut self.net, terms, constant, table, degree)?;
        Ok(cell)
    }

    /// Adds an output. The faults are `Limit` of field 6, where there are 64 outputs already, and `Output`, for what is
    /// wrong with this one.
    pub fn output(
        &mut self,
        name: Name,
        kind: Kind,
        bits: u32,
        cells: &[u32],
    ) -> Result<(), PenError>
        ensures added { OnOk result (self.new
            ≡ with_output self.old (record
            { name = name; kind = kind; bits = bits; cells = cells.now })) }
        ensures fault { Tells result (fault_of
            (with_output self.old (record
            { name = name; kind = kind; bits = bits; cells = cells.now }))) }
        ensures unchanged { OnErr result (self.new ≡ self.old) }
    {
        let cells = Cells::from_vec(Vec::from_slice(self.alloc, cells)?);
        let output = NetOutput {
            name,
            kind,
            bits,
            cells,
        };
        check_output(&self.net, &output)?;
        // The output's name is one by its own contract.
        output.name.as_bytes();
        self.net.outputs.push(output)?;
        Ok(())
    }
}

/// Tests the net with one input more.
fn check_input(net: &Net, input: &NetInput) -> Result<(), NetFault>
    requires legal { Legal net.now }
    requires first { net.now.jobs ≡ [] }
    ensures { TellsFault result (fault_of (with_input net.now input.now)) }
{
    let inputs = net.inputs.as_slice();
    let count = inputs.len();
    check_limit(count < MOST_INPUTS, 2, count + 1)?;
    check_limit(is_input(net.space, inputs, input), 3, count)
}

/// Tests the net with one job more, and answers the degree of the new cell.
fn check_job(net: &Net, terms: &[Term], constant: i16, table: &[u8]) -> Result<u8, NetFault>
    requires { Legal net.now }
    ensures fault { TellsFault result (fault_of (with_job net.now terms.now constant table.now)) }
    ensures degree { IfOk result (λ d. d ≡ reached (degree net.now) terms.now constant table.now) }
{
    let inputs = net.inputs.as_slice();
    let jobs = net.jobs.as_slice();
    let count = jobs.len();
    check_limit(count < MOST_JOBS, 4, count + 1)?;
    check_limit(terms.len() <= MOST_TERMS, 5, count)?;
    reach(net.space, inputs, jobs, terms, constant, table)
}

/// The degree of the cell of a job that is known to be lawful.
fn known_degree(net: &Net, terms: &[Term], constant: i16, table: &[u8]) -> u8
    requires legal { Legal net.now }
    requires few { length terms.now ≤ most_terms }
    requires fits { JobFits net.now.space (cell_count net.now) (degree net.now) (noise net.now)
        terms.now constant table.now }
    ensures { result ≡ reached (degree net.now) terms.now constant table.now }
{
    let inputs = net.inputs.as_slice();
    let jobs = net.jobs.as_slice();
    let sum = sum_tags(net.space, inputs, jobs, terms, constant);
    greatest_in(table, sum.low, sum.high)
}

fn greatest_in(table: &[u8], low: i32, high: i32) -> u8
    requires low { pos 0 ≤ℤ low }
    requires order { low ≤ℤ high }
    requires within { natural high < length table.now }
    ensures { result ≡ greatest_between table.now (natural low) (natural high) }
{
    greatest_between(table, low as usize, high as usize)
}

/// Tests the net with one output more.
fn check_output(net: &Net, output: &NetOutput) -> Result<(), NetFault>
    requires { Legal net.now }
    ensures { TellsFault result (fault_of (with_output net.now output.now)) }
{
    let outputs = net.outputs.as_slice();
    let count = outputs.len();
    check_limit(count < MOST_OUTPUTS, 6, count + 1)?;
    if is_output(net, outputs, output) {
        Ok(())
    } else {
        Err(NetFault::Output {
            index: count as u32,
        })
    }
}

/// Adds a job at the end; where memory is wanted, nothing is added.
fn add_job(
    alloc: Global,
    net: &mut Net,
    terms: &[Term],
    constant: i16,
    table: &[u8],
    degree: u8,
) -> Result<(), AllocError>
    ensures added { OnOk result (net.new ≡ record net.old {
      jobs = net.old.jobs
          ++ record { terms = terms.now; constant = constant; table = table.now; degree = degree }
          ∷ [];
    }) }
    ensures unchanged { OnErr result (net.new ≡ net.old) }
{
    let job = make_job(alloc, terms, constant, table, degree)?;
    net.jobs.push(job)
}

fn make_job(
    alloc: Global,
    terms: &[Term],
    constant: i16,
    table: &[u8],
    degree: u8,
) -> Result<Job, AllocError>
    ensures { IfOk result (λ job. job ≡ record
        { terms = terms.now; constant = constant; table = table.now; degree = degree }) }
{
    Ok(Job {
        terms: Terms::from_vec(Vec::from_slice(alloc, terms)?),
        constant,
        table: Table::from_vec(Vec::from_slice(alloc, table)?),
        degree,
    })
}
