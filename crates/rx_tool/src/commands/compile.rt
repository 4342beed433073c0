//! compile CIRCUIT NET: writes the net file of a net of a circuit, and prints its jobs and its depth.
ghost use Rattle.std.specs.Prelude.{◌≡◌, length};
ghost use Rattle.rx_tool.specs.Answers.{Answers};
ghost use Rattle.rx_tool.specs.declared.command.Command.TheVariants.{Compile};

use crate::bytes::Bytes;
use crate::commands::shared::{one_file, size_line, stop_for};
use crate::outcome::{Done, Stop};
use crate::words::Word;
use rx_circuit::{ParseError, parse};
use rx_codec::encode_net;
use rx_compile::{CompileFault, compile};
use rx_net::depth;
use rx_report::{malformed_text, many_jobs};
use std::alloc::Global;

/// Compiles a circuit. It refuses, in this order, a malformed circuit, and one whose lines may take more than 65,536
/// jobs.
pub fn compile_circuit(
    alloc: Global,
    circuit: &Word<'_>,
    net: &Word<'_>,
    files: &[Bytes],
) -> Result<Done, Stop>
    requires { length files.now ≡ 1 }
    ensures { Answers (Compile circuit.now net.now) files.now result }
{
    let program = match parse(alloc, files[0].as_slice()) {
        Ok(program) => program,
        Err(ParseError::Line(fault)) => {
            return Err(stop_for(malformed_text(alloc, circuit.as_str(), fault)));
        }
        Err(ParseError::Memory) => return Err(Stop::Memory),
    };
    let made = match compile(alloc, &program) {
        Ok(made) => made,
        Err(CompileFault::Jobs(bound)) => return Err(stop_for(many_jobs(alloc, bound))),
        Err(CompileFault::Memory) => return Err(Stop::Memory),
    };
    let bytes = encode_net(alloc, &made)?;
    let depth = depth(alloc, &made)?;
    let lines = size_line(alloc, made.jobs.as_slice().len(), depth)?;
    let done = one_file(alloc, net, bytes)?;
    Ok(Done {
        writes: done.writes,
        lines,
    })
}
