//! The outputs of a circuit are given out, in order, of the cells of their lines.
ghost use Rattle.std.specs.Prelude.{◌≡◌, ◌+◌, ◌<◌, [], None, IfOk, OnOk, length};
ghost use Rattle.rx_net.specs.Faults.{fault_of};
ghost use Rattle.rx_net.specs.Pen.{with_output};
ghost use Rattle.rx_compile.specs.States.{Holds, net_output, outputs_before, line_at, step_at};

use crate::kinds::file_kind;
use rx_language::{Circuit, Line, Step};
use rx_net::{Cells, NetPen, PenError};
use std::alloc::AllocError;

/// Gives out the outputs of a net that holds all lines.
pub(crate) fn give_outputs(
    pen: &mut NetPen,
    circuit: &Circuit,
    cells: &[Cells],
) -> Result<(), AllocError>
    requires count { length cells.now ≡ length circuit.now.lines }
    requires holds { Holds circuit.now pen.old cells.now }
    requires blank { pen.old.outputs ≡ [] }
    ensures kept { OnOk result (Holds circuit.now pen.new cells.now) }
    ensures given { OnOk result (pen.new.outputs
        ≡ outputs_before circuit.now cells.now (length circuit.now.lines)) }
{
    for place in 0..circuit.lines().len() {
        give_line(pen, circuit, cells, place)?;
    }
    Ok(())
}

/// Gives out the line at a place, where it is an output.
fn give_line(
    pen: &mut NetPen,
    circuit: &Circuit,
    cells: &[Cells],
    place: usize,
) -> Result<(), AllocError>
    requires there { place < length circuit.now.lines }
    requires count { length cells.now ≡ length circuit.now.lines }
    requires holds { Holds circuit.now pen.old cells.now }
    requires before { pen.old.outputs ≡ outputs_before circuit.now cells.now place }
    ensures kept { OnOk result (Holds circuit.now pen.new cells.now) }
    ensures given { OnOk result (pen.new.outputs
        ≡ outputs_before circuit.now cells.now (place + 1)) }
{
    let _space = pen.space();
    let line = &circuit.lines()[place];
    if !line.word.is_output() {
        return Ok(());
    }
    add_output(pen, line, &circuit.steps()[place], cells[place].as_slice())
}

/// Adds an output that is known to be lawful.
fn add_output(pen: &mut NetPen, line: &Line, step: &Step, cells: &[u32]) -> Result<(), AllocError>
    requires { fault_of (with_output pen.old (net_output line.now step.now cells.now)) ≡ None }
    ensures { OnOk result (pen.new
        ≡ with_output pen.old (net_output line.now step.now cells.now)) }
{
    let kind = step.kind;
    match pen.output(line.name, file_kind(kind), kind.bits(), cells) {
        Ok(()) => Ok(()),
        Err(PenError::Memory) => Err(AllocError),
        Err(PenError::Net(_)) => unreachable!(),
    }
}
