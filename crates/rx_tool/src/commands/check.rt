//! check P: prints the worst-case sums of a set that is accepted.
ghost use Rattle.std.specs.Prelude.{◌≡◌, ◌++◌, IfOk, OnOk, length, string_bytes};
ghost use Rattle.rx_tool.specs.Answers.{Answers};
ghost use Rattle.rx_tool.specs.Check.{bound_line, bounds_lines};
ghost use Rattle.rx_tool.specs.Sources.{source_reads};
ghost use Rattle.rx_tool.specs.declared.command.Command.TheVariants.{Check};

use crate::bytes::Bytes;
use crate::command::Source;
use crate::commands::shared::accepted_set;
use crate::outcome::{Done, Stop};
use rx_params::Bounds;
use std::alloc::{AllocError, Global};

/// Checks the set of a source, as `accepted_set` does, and prints its sums.
pub fn check_set(alloc: Global, source: &Source<'_>, files: &[Bytes]) -> Result<Done, Stop>
    requires { length files.now ≡ length (source_reads source.now) }
    ensures { Answers (Check source.now) files.now result }
{
    match accepted_set(alloc, source, files) {
        Ok((_, bounds)) => Ok(Done {
            writes: Vec::new(alloc),
            lines: lines_of(alloc, &bounds)?,
        }),
        Err(stop) => Err(stop),
    }
}

/// The seven lines of an accepted set.
fn lines_of(alloc: Global, bounds: &Bounds) -> Result<String, AllocError>
    ensures { IfOk result (λ lines. string_bytes lines ≡ bounds_lines bounds.now) }
{
    let mut lines = String::new(alloc);
    put_line(&mut lines, "step", bounds.step)?;
    put_line(&mut lines, "boot", bounds.boot)?;
    put_line(&mut lines, "switch", bounds.switch)?;
    put_line(&mut lines, "round", bounds.round)?;
    put_line(&mut lines, "left", bounds.left)?;
    put_line(&mut lines, "right", bounds.right)?;
    lines.push_str("accepted\n")?;
    Ok(lines)
}

/// Appends the line of a sum.
fn put_line(lines: &mut String, name: &str, bound: u128) -> Result<(), AllocError>
    ensures { OnOk result (string_bytes lines.new ≡ string_bytes lines.old
        ++ bound_line name.now bound) }
{
    write!(lines, "{name} {bound}\n")
}
