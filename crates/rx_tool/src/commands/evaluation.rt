//! The evaluation of a net over blocks of its inputs.
ghost use Rattle.std.specs.Prelude.{◌≡◌, IfOk, length};
ghost use Rattle.rx_net.specs.Cells.{input_cells};
ghost use Rattle.rx_net.specs.Named.{IsNet};
ghost use Rattle.rx_codec.specs.CipherFile.{IsWritable};
ghost use Rattle.rx_crew.specs.Noise.{KeepsCells};
ghost use Rattle.rx_server.specs.Laws.{AreCellBlocks};
ghost use Rattle.rx_tool.specs.Refusals.{IsWithinLimits};
ghost use Rattle.rx_tool.specs.Run.{evaluation};

use rx_block::Block;
use rx_boot::ServerKey;
use rx_codec::{Blocks, Cipher};
use rx_crew::{Gate, run_net};
use rx_net::Net;
use rx_server::{output_items, server_laws};
use std::alloc::{AllocError, Global};
use std::thread::Threads;

/// What an evaluation gave.
#[derive(Drop)]
pub struct Evaluation {
    /// The outputs of the net.
    pub outputs: Cipher,
    /// How many jobs were run.
    pub jobs: u32,
}

/// Evaluates a net of the key's message bits over blocks of its inputs, within the limits of a run. Where the blocks
/// keep values, each cell keeps the value that the net gives it.
pub fn evaluate<R: Threads + Sync, G: Gate + Sync>(
    rt: &R,
    alloc: Global,
    key: &ServerKey,
    net: &Net,
    workers: u64,
    inputs: &[Block],
    gate: &G,
) -> Result<Evaluation, AllocError>
    requires net { IsNet net.now }
    requires space { net.now.space ≡ key.now.params.message_bits }
    requires inputs { AreCellBlocks key.now.params net.now
        (input_cells net.now.space net.now.inputs) inputs.now }
    requires limits { IsWithinLimits key.now.params workers (length net.now.jobs) }
    ensures outputs { IfOk result (λ made. made.outputs ≡ evaluation key.now net.now inputs.now) }
    ensures writable { IfOk result (λ made. IsWritable made.outputs) }
    ensures jobs { IfOk result (λ made. made.jobs ≡ length net.now.jobs) }
    ensures keeps { IfOk result (λ _. KeepsCells key.now net.now inputs.now) }
{
    server_laws();
    let report = run_net(rt, alloc, net, key, inputs, workers as u32, gate)?;
    let outputs = Blocks::from_vec(report.outputs);
    let items = output_items(alloc, net.outputs.as_slice(), outputs)?;
    Ok(Evaluation {
        outputs: Cipher {
            params: key.params,
            items,
        },
        jobs: report.ran + report.finished,
    })
}
