//! The top call.
ghost use Rattle.std.specs.Prelude.{◌≡◌, length, Some};
ghost use Rattle.rx_tool.specs.Words.{texts};
ghost use Rattle.rx_tool.specs.Answers.{Answers};
ghost use Rattle.rx_tool.specs.Commands.{command_of, reads_of};
ghost use Rattle.rx_tool.specs.World.{world};
ghost use Rattle.rx_tool.specs.Ends.{ReportGives, GivesUp, Performs};
ghost use Rattle.rx_tool.specs.Ran.{Ran};
ghost use Rattle.rx_tool.specs.Outcome.{IsOutcome};

use crate::bytes::Bytes;
use crate::command::{Command, parse};
use crate::commands::{
    check_set, compile_circuit, decrypt_numbers, encrypt_numbers, evaluate_plain, expand_file,
    fold_net, make_client, make_files, make_server, migrate_file, run_net_files, run_trip,
};
use crate::engine::{read_all, write_all};
use crate::outcome::{Done, Output, Stop};
use rx_client::reading_laws;
use rx_codec::file_laws;
use rx_crew::Gate;
use rx_seeded::seeded_file_laws;
use rx_store::{Sink, Store, WriteError};
use std::alloc::Global;
use std::thread::Threads;

/// Runs the command that the words after the program's name are. The status is 0 where it was done, 2 where
/// the words are no command, 3 where a read failed, 4 where a write or the printing failed, 11 for want of
/// memory, and else that of the refusal, 5 to 10 or 12. What each says of the files and of what was printed is
/// `IsOutcome`, a clause a line. Source: `docs/FORMATS.md`, Reports.
pub fn tool<R: Threads + Sync, S: Store, K: Sink, G: Gate + Sync>(
    rt: &R,
    alloc: Global,
    words: &[String],
    store: &mut S,
    sink: &mut K,
    gate: &G,
) -> u8
    ensures { IsOutcome (command_of (texts words.now))
        (world (S.files store.old) (S.read_faults store.old) (S.write_faults store.old)
        (K.written sink.old) (K.faults sink.old))
        (world (S.files store.new) (S.read_faults store.new) (S.write_faults store.new)
        (K.written sink.new) (K.faults sink.new))
        result }
{
    file_laws();
    seeded_file_laws();
    reading_laws();
    let status = run_words(rt, alloc, words, store, sink, gate);
    status
}

fn run_words<R: Threads + Sync, S: Store, K: Sink, G: Gate + Sync>(
    rt: &R,
    alloc: Global,
    words: &[String],
    store: &mut S,
    sink: &mut K,
    gate: &G,
) -> u8
    ensures { Ran (command_of (texts words.now))
        (world (S.files store.old) (S.read_faults store.old) (S.write_faults store.old)
        (K.written sink.old) (K.faults sink.old))
        (world (S.files store.new) (S.read_faults store.new) (S.write_faults store.new)
        (K.written sink.new) (K.faults sink.new))
        result }
{
    match parse(words) {
        Some(command) => run(rt, alloc, &command, store, sink, gate),
        None => report(2, b"usage\n", sink),
    }
}

fn run<R: Threads + Sync, S: Store, K: Sink, G: Gate + Sync>(
    rt: &R,
    alloc: Global,
    command: &Command<'_>,
    store: &mut S,
    sink: &mut K,
    gate: &G,
) -> u8
    ensures { Ran (Some command.now)
        (world (S.files store.old) (S.read_faults store.old) (S.write_faults store.old)
        (K.written sink.old) (K.faults sink.old))
        (world (S.files store.new) (S.read_faults store.new) (S.write_faults store.new)
        (K.written sink.new) (K.faults sink.new))
        result }
{
    let Ok(names) = command.reads(alloc) else {
        return 11;
    };
    let files = match read_all(alloc, &names, store) {
        Ok(files) => files,
        Err(stop) => return give_up(&stop, sink),
    };
    match answer(rt, alloc, command, &files, gate) {
        Ok(done) => perform(&done.writes, done.lines.as_bytes(), store, sink),
        Err(stop) => give_up(&stop, sink),
    }
}

/// What a command makes of the files that it reads.
fn answer<R: Threads + Sync, G: Gate + Sync>(
    rt: &R,
    alloc: Global,
    command: &Command<'_>,
    files: &[Bytes],
    gate: &G,
) -> Result<Done, Stop>
    requires { length files.now ≡ length (reads_of command.now) }
    ensures { Answers command.now files.now result }
{
    match command {
        Command::Check(source) => check_set(alloc, source, files),
        Command::MakeClient(source, seed, client) => {
            make_client(alloc, source, seed, client, files)
        }
        Command::Keygen(client, mask_seed, server) => {
            make_server(alloc, client, mask_seed, server, files)
        }
        Command::Encrypt(client, mask_seed, noise_seed, values, out) => {
            encrypt_numbers(alloc, client, mask_seed, noise_seed, values, out, files)
        }
        Command::Compile(circuit, net) => compile_circuit(alloc, circuit, net, files),
        Command::Fold(net, out) => fold_net(alloc, net, out, files),
        Command::Run(server, net, workers, out, inputs) => run_net_files(
            rt, alloc, server, net, *workers, out, inputs, files, gate,
        ),
        Command::Decrypt(client, input) => decrypt_numbers(alloc, client, input, files),
        Command::Trip(words) => run_trip(rt, alloc, words, files, gate),
        Command::Plain(circuit, values) => evaluate_plain(alloc, circuit, values, files),
        Command::Make(number, circuit, values) => {
            make_files(alloc, *number, circuit, values, files)
        }
        Command::Migrate(mask_seed, input, out) => {
            migrate_file(alloc, mask_seed, input, out, files)
        }
        Command::Expand(input, out) => expand_file(alloc, input, out, files),
    }
}

fn give_up<K: Sink>(stop: &Stop, sink: &mut K) -> u8
    ensures { GivesUp stop.now (K.written sink.old) (K.faults sink.old)
        (K.written sink.new) (K.faults sink.new) result }
{
    match stop {
        Stop::Refused(refusal) => report(refusal.kind().status(), refusal.line(), sink),
        Stop::Read => 3,
        Stop::Memory => 11,
    }
}

fn report<K: Sink>(status: u8, line: &[u8], sink: &mut K) -> u8
    ensures { ReportGives status line.now (K.written sink.old) (K.faults sink.old)
        (K.written sink.new) (K.faults sink.new) result }
{
    match sink.put(line) {
        Ok(()) => status,
        Err(WriteError::Failed) => status,
        Err(WriteError::Memory(_)) => 11,
    }
}

/// Writes the files, and then prints the lines.
fn perform<S: Store, K: Sink>(writes: &[Output], lines: &[u8], store: &mut S, sink: &mut K) -> u8
    ensures { Performs writes.now lines.now
        (world (S.files store.old) (S.read_faults store.old) (S.write_faults store.old)
        (K.written sink.old) (K.faults sink.old))
        (world (S.files store.new) (S.read_faults store.new) (S.write_faults store.new)
        (K.written sink.new) (K.faults sink.new))
        result }
{
    match write_all(writes, store) {
        Ok(()) => match sink.put(lines) {
            Ok(()) => 0,
            Err(WriteError::Failed) => 4,
            Err(WriteError::Memory(_)) => 11,
        },
        Err(WriteError::Failed) => 4,
        Err(WriteError::Memory(_)) => 11,
    }
}
