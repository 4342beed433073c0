//! run SERVER NET WORKERS OUT IN..: evaluates a net over the items of ciphertext files, and writes its outputs.
ghost use Rattle.std.specs.Prelude.{◌≡◌, ◌+◌, IfOk, length, string_bytes};
ghost use Rattle.rx_tool.specs.Answers.{Answers};
ghost use Rattle.rx_tool.specs.Run.{jobs_line};
ghost use Rattle.rx_tool.specs.declared.command.Command.TheVariants.{Run};

use crate::bytes::Bytes;
use crate::commands::evaluation::evaluate;
use crate::commands::run_checks::checked_inputs;
use crate::commands::run_inputs::read_ciphers;
use crate::commands::shared::{one_file, stop_for};
use crate::outcome::{Done, Stop};
use crate::words::{Names, Word};
use rx_codec::{CodecFault, decode_net, encode_cipher};
use rx_crew::Gate;
use rx_report::malformed_binary;
use rx_seeded::decode_server;
use rx_server::server_laws;
use std::alloc::{AllocError, Global};
use std::thread::Threads;

/// Runs a net under a server key over the inputs that some files hold. It refuses, in this order, a malformed server
/// file, a malformed net file, the first malformed ciphertext file, and what `checked_inputs` refuses.
pub fn run_net_files<R: Threads + Sync, G: Gate + Sync>(
    rt: &R,
    alloc: Global,
    server: &Word<'_>,
    net: &Word<'_>,
    workers: u64,
    out: &Word<'_>,
    inputs: &Names<'_>,
    files: &[Bytes],
    gate: &G,
) -> Result<Done, Stop>
    requires { length files.now ≡ length inputs.now + 2 }
    ensures { Answers (Run server.now net.now workers out.now inputs.now) files.now result }
{
    let [server_file, net_file, input_files @ ..] = files else {
        unreachable!()
    };
    let key = match decode_server(alloc, server_file.as_slice()) {
        Ok(key) => key,
        Err(CodecFault::Memory) => return Err(Stop::Memory),
        Err(fault) => return Err(stop_for(malformed_binary(alloc, server.as_str(), fault))),
    };
    let legal = match decode_net(alloc, net_file.as_slice()) {
        Ok(legal) => legal,
        Err(CodecFault::Memory) => return Err(Stop::Memory),
        Err(fault) => return Err(stop_for(malformed_binary(alloc, net.as_str(), fault))),
    };
    let names = inputs.words();
    let ciphers = match read_ciphers(alloc, names, input_files) {
        Ok(ciphers) => ciphers,
        Err(stop) => return Err(stop),
    };
    let set = &key.params;
    let blocks = match checked_inputs(alloc, set, net.as_str(), &legal, workers, names, &ciphers) {
        Ok(blocks) => blocks,
        Err(stop) => return Err(stop),
    };
    server_laws();
    let made = evaluate(rt, alloc, &key, &legal, workers, &blocks, gate)?;
    let bytes = encode_cipher(alloc, &made.outputs)?;
    let lines = jobs_line(alloc, made.jobs)?;
    let done = one_file(alloc, out, bytes)?;
    Ok(Done {
        writes: done.writes,
        lines,
    })
}

/// The line of a number of jobs.
fn jobs_line(alloc: Global, jobs: u32) -> Result<String, AllocError>
    ensures { IfOk result (λ line. string_bytes line ≡ jobs_line jobs) }
{
    format!(in alloc; "jobs {jobs}\n")
}
