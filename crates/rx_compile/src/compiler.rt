//! The net of a circuit.
ghost use Rattle.std.specs.Prelude.{◌≤◌, IfOk};
ghost use Rattle.rx_net.specs.Limits.{most_jobs};
ghost use Rattle.rx_meaning.specs.Bounds.{jobs_of};
ghost use Rattle.rx_compile.specs.Compiled.{Compiled};
ghost use Rattle.rx_compile.specs.Faults.{FaultIs};

use crate::declaring::declare_inputs;
use crate::fault::CompileFault;
use crate::giving::give_outputs;
use crate::planning::plan_lines;
use rx_language::Circuit;
use rx_meaning::job_bound;
use rx_net::{MOST_JOBS, Net, NetPen};
use std::alloc::{AllocError, Global};

/// A net of a circuit. The error is the job bound of the circuit exactly where that is above 65,536, else want of memory.
pub fn compile(alloc: Global, circuit: &Circuit) -> Result<Net, CompileFault>
    ensures compiled { IfOk result (λ net. Compiled circuit.now net) }
    ensures few { IfOk result (λ net. jobs_of circuit.now ≤ most_jobs) }
    ensures fault { FaultIs circuit.now result }
{
    let bound = job_bound(circuit);
    if bound > MOST_JOBS as u64 {
        return Err(CompileFault::Jobs(bound));
    }
    match compile_few(alloc, circuit) {
        Ok(net) => Ok(net),
        Err(_) => Err(CompileFault::Memory),
    }
}

/// A net of a circuit whose job bound is within the limit.
fn compile_few(alloc: Global, circuit: &Circuit) -> Result<Net, AllocError>
    requires { jobs_of circuit.now ≤ most_jobs }
    ensures { IfOk result (λ net. Compiled circuit.now net) }
{
    let mut pen = NetPen::new(alloc, circuit.space());
    let firsts = declare_inputs(&mut pen, circuit)?;
    let cells = plan_lines(&mut pen, circuit, &firsts)?;
    give_outputs(&mut pen, circuit, &cells)?;
    Ok(pen.finish())
}
