//! The inputs of a circuit are declared, in order, before there is a job.
ghost use Rattle.std.specs.Prelude.{◌≡◌, ◌+◌, ◌<◌, None, [], IfOk, OnOk, length};
ghost use Rattle.rx_net.specs.Faults.{fault_of};
ghost use Rattle.rx_net.specs.Pen.{with_input};
ghost use Rattle.rx_compile.specs.States.{inputs_net, AreFirsts};

use crate::kinds::file_kind;
use rx_language::Circuit;
use rx_net::{NetInput, NetPen, PenError};
use std::alloc::AllocError;

/// Declares the inputs, and answers the first cell for each line that is one.
pub(crate) fn declare_inputs(pen: &mut NetPen, circuit: &Circuit) -> Result<Vec<u32>, AllocError>
    requires { pen.old ≡ inputs_net circuit.now 0 }
    ensures firsts { IfOk result (λ v. AreFirsts circuit.now v.items) }
    ensures declared { IfOk result (λ _.
        pen.new ≡ inputs_net circuit.now (length circuit.now.lines)) }
{
    let count = circuit.lines().len();
    let mut firsts = Vec::with_capacity(pen.allocator(), count)?;
    for place in 0..count {
        firsts.push(pen.cells())?;
        declare_line(pen, circuit, place)?;
    }
    Ok(firsts)
}

/// Declares the input of the line at a place, where it is one.
fn declare_line(pen: &mut NetPen, circuit: &Circuit, place: usize) -> Result<(), AllocError>
    requires there { place < length circuit.now.lines }
    requires before { pen.old ≡ inputs_net circuit.now place }
    ensures { OnOk result (pen.new ≡ inputs_net circuit.now (place + 1)) }
{
    let space = pen.space();
    let line = &circuit.lines()[place];
    if !line.word.is_input() {
        return Ok(());
    }
    let kind = circuit.steps()[place].kind;
    let form = file_kind(kind);
    let input = NetInput {
        name: line.name,
        kind: form,
        bits: kind.bits(),
        degree: form.greatest(space),
        noise: 1,
    };
    add_input(pen, input)
}

/// Adds an input that is known to be lawful.
fn add_input(pen: &mut NetPen, input: NetInput) -> Result<(), AllocError>
    requires first { pen.old.jobs ≡ [] }
    requires lawful { fault_of (with_input pen.old input) ≡ None }
    ensures { OnOk result (pen.new ≡ with_input pen.old input) }
{
    match pen.input(input) {
        Ok(_) => Ok(()),
        Err(PenError::Memory) => Err(AllocError),
        Err(PenError::Net(_)) => unreachable!(),
    }
}
