//! Writing the fields of a net file, each behind the one before it.
ghost use Rattle.std.specs.Prelude.{◌≡◌, ◌≤◌, ◌<◌, ◌^◌, ◌∷◌, ◌++◌, length, IsTrue, OnOk};
ghost use Rattle.std.specs.Int.{w16, w32};
ghost use Rattle.std.specs.List.{flat_map, AllByRecursion};
ghost use Rattle.rx_text.specs.Names.{is_name};
ghost use Rattle.rx_net.specs.declared.net.Job.{Job};
ghost use Rattle.rx_net.specs.declared.net.NetInput.{NetInput};
ghost use Rattle.rx_net.specs.declared.net.NetOutput.{NetOutput};
ghost use Rattle.rx_net.specs.Limits.{most_inputs, most_outputs, most_terms};
ghost use Rattle.rx_codec.specs.Reading.{list_bytes};
ghost use Rattle.rx_codec.specs.NetFile.{input_bytes, term_bytes, job_bytes, output_bytes};

use crate::named_fields::write_name_and_form;
use crate::writer::write_numbers;
use rx_net::{Job, NetInput, NetOutput, Term};
use std::alloc::AllocError;

/// Adds the number of the inputs, and the inputs. Their names are names, as each `Name` is.
pub fn write_inputs(out: &mut Vec<u8>, inputs: &[NetInput]) -> Result<(), AllocError>
    requires few { length inputs.now ≤ most_inputs }
    requires short { AllByRecursion (λ (i : NetInput). i.bits ≤ 64) inputs.now }
    ensures value { OnOk result (out.new.items ≡ out.old.items
        ++ list_bytes w16 input_bytes inputs.now) }
    ensures named { OnOk result
        (AllByRecursion (λ (i : NetInput). IsTrue (is_name i.name)) inputs.now) }
{
    out.extend_from_slice(&(inputs.len() as u16).to_le_bytes())?;
    for input in inputs {
        write_name_and_form(out, &input.name, input.kind, input.bits)?;
        out.push(input.degree)?;
        out.push(input.noise)?;
    }
    Ok(())
}

/// Adds the number of the jobs, and the jobs.
pub fn write_jobs(out: &mut Vec<u8>, jobs: &[Job]) -> Result<(), AllocError>
    requires few { length jobs.now < 2 ^ 32 }
    requires short { AllByRecursion (λ (j : Job). length j.terms ≤ most_terms) jobs.now }
    ensures { OnOk result (out.new.items ≡ out.old.items ++ list_bytes w32 job_bytes jobs.now) }
{
    out.extend_from_slice(&(jobs.len() as u32).to_le_bytes())?;
    for job in jobs {
        write_job(out, job)?;
    }
    Ok(())
}

fn write_job(out: &mut Vec<u8>, job: &Job) -> Result<(), AllocError>
    requires { length job.now.terms ≤ most_terms }
    ensures { OnOk result (out.new.items ≡ out.old.items ++ job_bytes job.now) }
{
    write_terms(out, job.terms.as_slice())?;
    out.extend_from_slice(&job.constant.to_le_bytes())?;
    out.extend_from_slice(job.table.as_slice())?;
    out.push(job.degree)?;
    Ok(())
}

fn write_terms(out: &mut Vec<u8>, terms: &[Term]) -> Result<(), AllocError>
    requires { length terms.now ≤ most_terms }
    ensures { OnOk result (out.new.items ≡ out.old.items
        ++ (length terms.now ∷ flat_map term_bytes terms.now)) }
{
    out.push(terms.len() as u8)?;
    for term in terms {
        out.extend_from_slice(&term.cell.to_le_bytes())?;
        out.extend_from_slice(&term.weight.to_le_bytes())?;
    }
    Ok(())
}

/// Adds the number of the outputs, and the outputs. Their names are names, as each `Name` is.
pub fn write_outputs(out: &mut Vec<u8>, outputs: &[NetOutput]) -> Result<(), AllocError>
    requires few { length outputs.now ≤ most_outputs }
    requires short { AllByRecursion (λ (o : NetOutput). o.bits ≤ 64) outputs.now }
    ensures value { OnOk result (out.new.items ≡ out.old.items
        ++ list_bytes w16 output_bytes outputs.now) }
    ensures named { OnOk result
        (AllByRecursion (λ (o : NetOutput). IsTrue (is_name o.name)) outputs.now) }
{
    out.extend_from_slice(&(outputs.len() as u16).to_le_bytes())?;
    for output in outputs {
        write_name_and_form(out, &output.name, output.kind, output.bits)?;
        write_numbers(out, output.cells.as_slice())?;
    }
    Ok(())
}
