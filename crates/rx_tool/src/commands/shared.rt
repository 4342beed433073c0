//! What commands share: the set of a source, a stop for a refusal, one file to be written.
ghost use Rattle.std.specs.Prelude.{◌≡◌, ◌∷◌, [], length, MatchResult, IfOk, string_bytes};
ghost use Rattle.rx_params.specs.Derived.{bounds_of};
ghost use Rattle.rx_params.specs.Acceptance.{Accepts};
ghost use Rattle.rx_tool.specs.Answers.{Yields};
ghost use Rattle.rx_tool.specs.Compile.{size_line};
ghost use Rattle.rx_tool.specs.Sources.{IsSet, set_refusal, source_reads, source_refusal};
ghost use Rattle.rx_tool.specs.declared.outcome.Stop.TheVariants.{Refused, Memory};

use crate::bytes::Bytes;
use crate::command::Source;
use crate::outcome::{Done, Stop};
use crate::words::Word;
use rx_params::{Bounds, Params, check, read_params};
use rx_report::{Refusal, malformed_text, not_accepted};
use std::alloc::{AllocError, Global};

/// Stops for a refusal, or for want of memory where it could not be reported.
pub fn stop_for(report: Result<Refusal, AllocError>) -> Stop
    ensures { MatchResult report (λ refusal. result ≡ Refused refusal) (λ _. result ≡ Memory) }
{
    match report {
        Ok(refusal) => Stop::Refused(refusal),
        Err(_) => Stop::Memory,
    }
}

/// A set of a source that is accepted, with its sums. It refuses a malformed text, and then the set.
pub fn accepted_set(
    alloc: Global,
    source: &Source<'_>,
    files: &[Bytes],
) -> Result<(Params, Bounds), Stop>
    requires { length files.now ≡ length (source_reads source.now) }
    ensures { Yields (source_refusal source.now files.now)
        (λ set. IsSet source.now files.now set.0 × Accepts set.0
        × (set.1 ≡ bounds_of set.0)) result }
{
    match source {
        Source::Named(set) => accepted(alloc, set),
        Source::File(name) => match read_params(files[0].as_slice()) {
            Ok(set) => accepted(alloc, &set),
            Err(fault) => Err(stop_for(malformed_text(alloc, name.as_str(), fault))),
        },
    }
}

/// A set that is accepted, with its sums.
fn accepted(alloc: Global, set: &Params) -> Result<(Params, Bounds), Stop>
    ensures { Yields (set_refusal set.now)
        (λ checked. (checked.0 ≡ set.now) × Accepts checked.0
        × (checked.1 ≡ bounds_of checked.0)) result }
{
    match check(set) {
        Ok(bounds) => Ok((*set, bounds)),
        Err(refused) => Err(stop_for(not_accepted(alloc, refused))),
    }
}

/// Done with one file to be written, and nothing to print.
pub fn one_file(alloc: Global, name: &Word<'_>, bytes: Vec<u8>) -> Result<Done, AllocError>
    ensures writes { IfOk result (λ done. done.writes.items ≡ (name.now, bytes.items) ∷ []) }
    ensures lines { IfOk result (λ done. string_bytes done.lines ≡ []) }
{
    let mut done = Done::new(alloc);
    done.add_file(alloc, name.as_str(), bytes)?;
    Ok(done)
}

/// The line of the jobs and the depth of a net.
pub fn size_line(alloc: Global, jobs: usize, depth: u32) -> Result<String, AllocError>
    ensures { IfOk result (λ line. string_bytes line ≡ size_line jobs depth) }
{
    format!(in alloc; "jobs {jobs} depth {depth}\n")
}
