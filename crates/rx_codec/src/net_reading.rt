//! Reading the fields of a net file, legal or not.
ghost use Rattle.std.specs.Prelude.{◌≡◌, ◌⊎◌, [], IfOk};
ghost use Rattle.std.specs.Int.{w8, w16, w32};
ghost use Rattle.rx_net.specs.Limits.{most_inputs, most_outputs, most_terms, most_jobs};
ghost use Rattle.rx_net.specs.Legal.{names_input as has_input, names_output as has_output};
ghost use Rattle.rx_codec.specs.Reading.{GivesExactlyAt, GivesAt, Gives, number_at, many_at, list_at};
ghost use Rattle.rx_codec.specs.NamedFields.{name_at};
ghost use Rattle.rx_codec.specs.NetFile.{input_at, term_at, job_at, output_at, space_at, lists_at, spelled_from};

use crate::CodecFault;
use crate::named_fields::{new_name, read_form, read_name_size};
use crate::reader::{Reader, in_range};
use rx_net::{
    Cells, Job, Jobs, MOST_INPUTS, MOST_JOBS, MOST_OUTPUTS, MOST_TERMS, Net, NetInput, NetInputs,
    NetOutput, NetOutputs, Table, Term, Terms,
};
use rx_params::{Name, noise_limit, plaintexts};
use std::alloc::Global;

/// The net that the fields of a file spell, or the first fault of a field.
#[tactic(auto, unfolding(crate::specs::NetFile::spelled_from))]
pub fn read_spelled(alloc: Global, bytes: &[u8]) -> Result<Net, CodecFault>
    ensures { Gives (λ net. net) result (spelled_from bytes.now) }
{
    let mut reader = Reader::after_magic(bytes, b"RXN1")?;
    let space = read_space(&mut reader)?;
    let net = read_lists(alloc, &mut reader, space)?;
    reader.end()?;
    Ok(net)
}

#[tactic(auto, unfolding(crate::specs::NetFile::space_at))]
fn read_space(reader: &mut Reader) -> Result<u32, CodecFault>
    ensures value { GivesExactlyAt (λ space. space) reader.new.at result
        (space_at reader.old.file reader.old.at) }
    ensures space { IfOk result (λ space. (space ≡ 2) ⊎ (space ≡ 3)) }
    ensures file { reader.new.file ≡ reader.old.file }
{
    let at = reader.at();
    match reader.u8()? {
        2 => Ok(2),
        3 => Ok(3),
        _ => Err(CodecFault::Field { at }),
    }
}

#[tactic(auto, unfolding(crate::specs::NetFile::lists_at))]
fn read_lists(alloc: Global, reader: &mut Reader, space: u32) -> Result<Net, CodecFault>
    requires { (space ≡ 2) ⊎ (space ≡ 3) }
    ensures value { GivesAt (λ net. net) reader.new.at result
        (lists_at space reader.old.file reader.old.at) }
    ensures file { reader.new.file ≡ reader.old.file }
{
    let inputs = read_inputs(alloc, reader, space)?;
    let jobs = read_jobs(alloc, reader, space)?;
    let outputs = read_outputs(alloc, reader, space)?;
    Ok(Net {
        space,
        inputs,
        jobs,
        outputs,
    })
}

#[tactic(auto, unfolding(crate::specs::Reading::list_at))]
fn read_inputs(alloc: Global, reader: &mut Reader, space: u32) -> Result<NetInputs, CodecFault>
    requires { (space ≡ 2) ⊎ (space ≡ 3) }
    ensures value { GivesAt (λ inputs. inputs) reader.new.at result
        (list_at w16 most_inputs (input_at space) reader.old.file reader.old.at) }
    ensures file { reader.new.file ≡ reader.old.file }
{
    let count = reader.u16_at_most(MOST_INPUTS as u16)?;
    let inputs = read_each_input(alloc, reader, space, count)?;
    Ok(NetInputs::from_vec(inputs))
}

fn read_each_input(
    alloc: Global,
    reader: &mut Reader,
    space: u32,
    count: u16,
) -> Result<Vec<NetInput>, CodecFault>
    requires { (space ≡ 2) ⊎ (space ≡ 3) }
    ensures value { GivesAt (λ inputs. inputs.items) reader.new.at result
        (many_at (input_at space) count [] reader.old.file reader.old.at) }
    ensures file { reader.new.file ≡ reader.old.file }
{
    let mut inputs = Vec::new(alloc);
    for _ in 0..count {
        let input = read_input(reader, space, inputs.as_slice())?;
        inputs.push(input)?;
    }
    Ok(inputs)
}

#[tactic(auto, unfolding(crate::specs::NetFile::input_at))]
fn read_input(reader: &mut Reader, space: u32, before: &[NetInput]) -> Result<NetInput, CodecFault>
    requires { (space ≡ 2) ⊎ (space ≡ 3) }
    ensures value { GivesExactlyAt (λ input. input) reader.new.at result
        (input_at space before.now reader.old.file reader.old.at) }
    ensures file { reader.new.file ≡ reader.old.file }
{
    let name = read_input_name(reader, before)?;
    let (kind, bits) = read_form(reader, space)?;
    let at = reader.at();
    let degree = reader.u8()?;
    in_range(degree <= kind.greatest(space), at)?;
    let at = reader.at();
    let noise = reader.u8()?;
    in_range((1..=noise_limit(space)).contains(&noise), at)?;
    Ok(NetInput {
        name,
        kind,
        bits,
        degree,
        noise,
    })
}

#[tactic(auto, unfolding(crate::specs::NamedFields::name_at))]
fn read_input_name(reader: &mut Reader, before: &[NetInput]) -> Result<Name, CodecFault>
    ensures value { GivesExactlyAt (λ name. name) reader.new.at result
        (name_at (λ name. has_input name before.now) reader.old.file reader.old.at) }
    ensures file { reader.new.file ≡ reader.old.file }
{
    let size = read_name_size(reader)?;
    let at = reader.at();
    let text = reader.bytes(size)?;
    new_name(text, names_input(text, before), at)
}

/// Whether one of these inputs has the name.
fn names_input(name: &[u8], inputs: &[NetInput]) -> bool
    ensures { result ≡ has_input name.now inputs.now }
{
    inputs.iter().any(|input| input.name.as_bytes() == name)
}

#[tactic(auto, unfolding(crate::specs::Reading::list_at))]
fn read_jobs(alloc: Global, reader: &mut Reader, space: u32) -> Result<Jobs, CodecFault>
    requires { (space ≡ 2) ⊎ (space ≡ 3) }
    ensures value { GivesAt (λ jobs. jobs) reader.new.at result
        (list_at w32 most_jobs (λ before. job_at space) reader.old.file reader.old.at) }
    ensures file { reader.new.file ≡ reader.old.file }
{
    let count = reader.u32_at_most(MOST_JOBS as u32)?;
    let jobs = read_each_job(alloc, reader, space, count)?;
    Ok(Jobs::from_vec(jobs))
}

fn read_each_job(
    alloc: Global,
    reader: &mut Reader,
    space: u32,
    count: u32,
) -> Result<Vec<Job>, CodecFault>
    requires { (space ≡ 2) ⊎ (space ≡ 3) }
    ensures value { GivesAt (λ jobs. jobs.items) reader.new.at result
        (many_at (λ before. job_at space) count [] reader.old.file reader.old.at) }
    ensures file { reader.new.file ≡ reader.old.file }
{
    let mut jobs = Vec::new(alloc);
    for _ in 0..count {
        let job = read_job(alloc, reader, space)?;
        jobs.push(job)?;
    }
    Ok(jobs)
}

#[tactic(auto, unfolding(crate::specs::NetFile::job_at))]
fn read_job(alloc: Global, reader: &mut Reader, space: u32) -> Result<Job, CodecFault>
    requires { (space ≡ 2) ⊎ (space ≡ 3) }
    ensures value { GivesAt (λ job. job) reader.new.at result
        (job_at space reader.old.file reader.old.at) }
    ensures file { reader.new.file ≡ reader.old.file }
{
    let terms = read_terms(alloc, reader)?;
    let constant = reader.i16()?;
    let table = Vec::from_slice(alloc, reader.bytes(usize::from(plaintexts(space)))?)?;
    let declared = reader.u8()?;
    Ok(Job {
        terms,
        constant,
        table: Table::from_vec(table),
        degree: declared,
    })
}

#[tactic(auto, unfolding(crate::specs::Reading::list_at))]
fn read_terms(alloc: Global, reader: &mut Reader) -> Result<Terms, CodecFault>
    ensures value { GivesAt (λ terms. terms) reader.new.at result
        (list_at w8 most_terms (λ before. term_at) reader.old.file reader.old.at) }
    ensures file { reader.new.file ≡ reader.old.file }
{
    let count = reader.u8_at_most(MOST_TERMS as u8)?;
    let terms = read_each_term(alloc, reader, count)?;
    Ok(Terms::from_vec(terms))
}

fn read_each_term(alloc: Global, reader: &mut Reader, count: u8) -> Result<Vec<Term>, CodecFault>
    ensures value { GivesAt (λ terms. terms.items) reader.new.at result
        (many_at (λ before. term_at) count [] reader.old.file reader.old.at) }
    ensures file { reader.new.file ≡ reader.old.file }
{
    let mut terms = Vec::new(alloc);
    for _ in 0..count {
        let term = read_term(reader)?;
        terms.push(term)?;
    }
    Ok(terms)
}

#[tactic(auto, unfolding(crate::specs::NetFile::term_at))]
fn read_term(reader: &mut Reader) -> Result<Term, CodecFault>
    ensures value { GivesExactlyAt (λ term. term) reader.new.at result
        (term_at reader.old.file reader.old.at) }
    ensures file { reader.new.file ≡ reader.old.file }
{
    let cell = reader.u32()?;
    let weight = reader.i8()?;
    Ok(Term { cell, weight })
}

#[tactic(auto, unfolding(crate::specs::Reading::list_at))]
fn read_outputs(alloc: Global, reader: &mut Reader, space: u32) -> Result<NetOutputs, CodecFault>
    requires { (space ≡ 2) ⊎ (space ≡ 3) }
    ensures value { GivesAt (λ outputs. outputs) reader.new.at result
        (list_at w16 most_outputs (output_at space) reader.old.file reader.old.at) }
    ensures file { reader.new.file ≡ reader.old.file }
{
    let count = reader.u16_at_most(MOST_OUTPUTS as u16)?;
    let outputs = read_each_output(alloc, reader, space, count)?;
    Ok(NetOutputs::from_vec(outputs))
}

fn read_each_output(
    alloc: Global,
    reader: &mut Reader,
    space: u32,
    count: u16,
) -> Result<Vec<NetOutput>, CodecFault>
    requires { (space ≡ 2) ⊎ (space ≡ 3) }
    ensures value { GivesAt (λ outputs. outputs.items) reader.new.at result
        (many_at (output_at space) count [] reader.old.file reader.old.at) }
    ensures file { reader.new.file ≡ reader.old.file }
{
    let mut outputs = Vec::new(alloc);
    for _ in 0..count {
        let output = read_output(alloc, reader, space, outputs.as_slice())?;
        outputs.push(output)?;
    }
    Ok(outputs)
}

#[tactic(auto, unfolding(crate::specs::NetFile::output_at))]
fn read_output(
    alloc: Global,
    reader: &mut Reader,
    space: u32,
    before: &[NetOutput],
) -> Result<NetOutput, CodecFault>
    requires { (space ≡ 2) ⊎ (space ≡ 3) }
    ensures value { GivesAt (λ output. output) reader.new.at result
        (output_at space before.now reader.old.file reader.old.at) }
    ensures file { reader.new.file ≡ reader.old.file }
{
    let name = read_output_name(reader, before)?;
    let (kind, bits) = read_form(reader, space)?;
    let cells = read_cells(alloc, reader, kind.block_count(space, bits))?;
    Ok(NetOutput {
        name,
        kind,
        bits,
        cells: Cells::from_vec(cells),
    })
}

#[tactic(auto, unfolding(crate::specs::NamedFields::name_at))]
fn read_output_name(reader: &mut Reader, before: &[NetOutput]) -> Result<Name, CodecFault>
    ensures value { GivesExactlyAt (λ name. name) reader.new.at result
        (name_at (λ name. has_output name before.now) reader.old.file reader.old.at) }
    ensures file { reader.new.file ≡ reader.old.file }
{
    let size = read_name_size(reader)?;
    let at = reader.at();
    let text = reader.bytes(size)?;
    new_name(text, names_output(text, before), at)
}

/// Whether one of these outputs has the name.
fn names_output(name: &[u8], outputs: &[NetOutput]) -> bool
    ensures { result ≡ has_output name.now outputs.now }
{
    outputs.iter().any(|output| output.name.as_bytes() == name)
}

fn read_cells(alloc: Global, reader: &mut Reader, count: u32) -> Result<Vec<u32>, CodecFault>
    ensures value { GivesAt (λ cells. cells.items) reader.new.at result
        (many_at (λ before. number_at w32) count [] reader.old.file reader.old.at) }
    ensures file { reader.new.file ≡ reader.old.file }
{
    let mut cells = Vec::new(alloc);
    for _ in 0..count {
        let cell = reader.u32()?;
        cells.push(cell)?;
    }
    Ok(cells)
}
