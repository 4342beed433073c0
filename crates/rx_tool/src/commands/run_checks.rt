//! The tests of a run: whether its key, its net and its inputs go together, and whether it is within the limits.
ghost use Rattle.std.specs.Prelude.{◌≡◌, None, length};
ghost use Rattle.rx_params.specs.Acceptance.{Accepts};
ghost use Rattle.rx_server.specs.Inputs.{blocks_found, first_fault, items_of};
ghost use Rattle.rx_tool.specs.Answers.{Yields};
ghost use Rattle.rx_tool.specs.Run.{MayRun, values_refusal, input_blocks, inputs_refusal};
ghost use Rattle.rx_tool.specs.Words.{texts};

use crate::commands::differences::{check_sets, check_space};
use crate::commands::limits::check_limits;
use crate::commands::shared::stop_for;
use crate::outcome::Stop;
use rx_block::Block;
use rx_codec::Cipher;
use rx_net::{Net, NetInput};
use rx_params::Params;
use rx_report::wrong_input;
use rx_server::{GatherError, gather_inputs};
use std::alloc::Global;

/// The blocks of the inputs of a net that may be run under a key of the set over some ciphers, each of the name at
/// its place. It refuses, in this order, a difference from the set, an input, and a limit that is passed.
pub fn checked_inputs(
    alloc: Global,
    set: &Params,
    net_name: &str,
    net: &Net,
    workers: u64,
    names: &[String],
    ciphers: &[Cipher],
) -> Result<Vec<Block>, Stop>
    requires accepted { Accepts set.now }
    requires count { length ciphers.now ≡ length names.now }
    ensures { Yields
        (values_refusal set.now net_name.now net.now workers (texts names.now) ciphers.now)
        (λ blocks. MayRun set.now net.now workers ciphers.now
        × (blocks.items ≡ input_blocks net.now ciphers.now)) result }
{
    if let Err(stop) = check_space(alloc, set, net_name, net.space) {
        return Err(stop);
    }
    if let Err(stop) = check_sets(alloc, set, names, ciphers) {
        return Err(stop);
    }
    let blocks = match found_inputs(alloc, net.inputs.as_slice(), ciphers) {
        Ok(blocks) => blocks,
        Err(stop) => return Err(stop),
    };
    let jobs = net.jobs.as_slice().len() as u64;
    match check_limits(alloc, set, workers, jobs) {
        Ok(()) => Ok(blocks),
        Err(stop) => Err(stop),
    }
}

/// The blocks of some inputs, where the ciphers give each as it is wanted.
fn found_inputs(alloc: Global, inputs: &[NetInput], ciphers: &[Cipher]) -> Result<Vec<Block>, Stop>
    ensures { Yields (inputs_refusal inputs.now ciphers.now)
        (λ blocks. (first_fault inputs.now (items_of ciphers.now) ≡ None)
        × (blocks.items ≡ blocks_found inputs.now (items_of ciphers.now))) result }
{
    match gather_inputs(alloc, inputs, ciphers) {
        Ok(blocks) => Ok(blocks),
        Err(GatherError::Input(fault)) => Err(stop_for(wrong_input(alloc, fault))),
        Err(GatherError::Memory) => Err(Stop::Memory),
    }
}
