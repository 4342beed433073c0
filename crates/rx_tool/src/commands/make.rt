//! make NUMBER CIRCUIT VALUES: writes a sample circuit and a value file with its inputs.
ghost use Rattle.rx_tool.specs.Answers.{Answers};
ghost use Rattle.rx_tool.specs.declared.command.Command.TheVariants.{Make};

use crate::bytes::Bytes;
use crate::outcome::{Done, Stop};
use crate::words::Word;
use rx_sample::{Sample, make_sample};
use std::alloc::Global;

/// Makes the sample of a number. Nothing refuses it.
pub fn make_files(
    alloc: Global,
    number: u64,
    circuit: &Word<'_>,
    values: &Word<'_>,
    files: &[Bytes],
) -> Result<Done, Stop>
    ensures { Answers (Make number circuit.now values.now) files.now result }
{
    let sample = make_sample(alloc, number)?;
    let Sample {
        circuit: circuit_text,
        values: values_text,
    } = sample;
    let mut done = Done::new(alloc);
    done.add_file(alloc, circuit.as_str(), circuit_text.into_bytes())?;
    done.add_file(alloc, values.as_str(), values_text.into_bytes())?;
    Ok(done)
}
