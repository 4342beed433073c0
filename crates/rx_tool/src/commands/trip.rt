//! trip CLIENT KEYSEED MASKSEED NOISESEED CIRCUIT VALUES WORKERS PREFIX: keygen, compile, encrypt, run and decrypt in
//! one. Values are handed on from part to part; bytes are spelled for the four files alone.
ghost use Rattle.std.specs.Prelude.{◌≡◌, ◌++◌, ◌∷◌, [], IfOk, OnOk, None, length, string_bytes};
ghost use Rattle.rx_params.specs.Acceptance.{Accepts};
ghost use Rattle.rx_language.specs.Programs.{IsProgram, inputs_of};
ghost use Rattle.rx_circuit.specs.Values.{AreValues};
ghost use Rattle.rx_circuit.specs.Inputs.{found_inputs};
ghost use Rattle.rx_client.specs.Encrypt.{first_width};
ghost use Rattle.rx_tool.specs.Answers.{Answers, Yields};
ghost use Rattle.rx_tool.specs.Encrypt.{width_refusal};
ghost use Rattle.rx_tool.specs.Plain.{inputs_refused};
ghost use Rattle.rx_tool.specs.Trip.{HasInputs, MayTrip, TripsWith, trip_files, trip_values_refusal};
ghost use Rattle.rx_tool.specs.declared.command.Command.TheVariants.{Trip as TripOf};

use crate::bytes::Bytes;
use crate::command::TripWords;
use crate::commands::differences::check_space;
use crate::commands::encrypt::encrypted;
use crate::commands::evaluation::evaluate;
use crate::commands::limits::check_limits;
use crate::commands::plain::stop_for_input;
use crate::commands::shared::stop_for;
use crate::commands::trip_parts::{
    compiled_net, decrypted_lines, input_blocks, made_key, server_file,
};
use crate::laws::circuit_way_laws;
use crate::outcome::{Done, Stop};
use rx_circuit::{Circuit, ParseError, Values, find_inputs, job_bound, parse, read_values};
use rx_client::wrong_width_in;
use rx_codec::{Client, decode_client, encode_cipher, encode_net};
use rx_crew::Gate;
use rx_report::{malformed_binary, malformed_text, wrong_width};
use rx_server::server_laws;
use std::alloc::{AllocError, Global};
use std::thread::Threads;

/// What the files of a trip spell.
#[derive(Drop)]
struct Given {
    keys: Client,
    circuit: Circuit,
    values: Values,
}

/// What a trip made: the bytes of its four files, and the lines that it prints.
#[derive(Drop)]
struct Made {
    server: Vec<u8>,
    net: Vec<u8>,
    inputs: Vec<u8>,
    outputs: Vec<u8>,
    lines: String,
}

/// Makes a trip. It refuses, in this order, a malformed client file, a malformed circuit, a malformed value file, and
/// what `check_trip` refuses; nothing is made before that.
pub fn run_trip<R: Threads + Sync, G: Gate + Sync>(
    rt: &R,
    alloc: Global,
    words: &TripWords<'_>,
    files: &[Bytes],
    gate: &G,
) -> Result<Done, Stop>
    requires { length files.now ≡ 3 }
    ensures { Answers (TripOf words.now) files.now result }
{
    let keys = match decode_client(files[0].as_slice()) {
        Ok(keys) => keys,
        Err(fault) => return Err(stop_for(malformed_binary(alloc, words.client.as_str(), fault))),
    };
    let circuit = match parse(alloc, files[1].as_slice()) {
        Ok(circuit) => circuit,
        Err(ParseError::Line(fault)) => {
            return Err(stop_for(malformed_text(alloc, words.circuit.as_str(), fault)));
        }
        Err(ParseError::Memory) => return Err(Stop::Memory),
    };
    let values = match read_values(alloc, files[2].as_slice()) {
        Ok(values) => values,
        Err(ParseError::Line(fault)) => {
            return Err(stop_for(malformed_text(alloc, words.values.as_str(), fault)));
        }
        Err(ParseError::Memory) => return Err(Stop::Memory),
    };
    let given = Given {
        keys,
        circuit,
        values,
    };
    let made = match checked_trip(rt, alloc, words, &given, gate) {
        Ok(made) => made,
        Err(stop) => return Err(stop),
    };
    let done = done_with(alloc, words, made)?;
    Ok(done)
}

/// Makes a trip where `check_trip` refuses nothing.
fn checked_trip<R: Threads + Sync, G: Gate + Sync>(
    rt: &R,
    alloc: Global,
    words: &TripWords<'_>,
    given: &Given,
    gate: &G,
) -> Result<Made, Stop>
    requires accepted { Accepts given.now.keys.params }
    requires program { IsProgram given.now.circuit }
    requires values { AreValues given.now.values }
    ensures { Yields
        (trip_values_refusal words.now given.now.keys given.now.circuit given.now.values)
        (λ made. TripsWith words.now given.now.keys given.now.circuit given.now.values
        (trip_files words.now made.server.items made.net.items made.inputs.items
        made.outputs.items) (string_bytes made.lines)) result }
{
    match check_trip(alloc, words, given) {
        Ok(()) => make_trip(rt, alloc, words, given, gate),
        Err(stop) => Err(stop),
    }
}

/// Whether the circuit has the message bits of the client, then whether the value file has a number for each of its
/// inputs, then whether the blocks make up the bits of each line, and then whether a run of as many jobs as the lines
/// of the circuit may take is within its limits.
fn check_trip(alloc: Global, words: &TripWords<'_>, given: &Given) -> Result<(), Stop>
    requires { Accepts given.now.keys.params }
    ensures { Yields
        (trip_values_refusal words.now given.now.keys given.now.circuit given.now.values)
        (λ _. MayTrip words.now given.now.keys given.now.circuit given.now.values) result }
{
    let set = &given.keys.params;
    if let Err(stop) = check_space(alloc, set, words.circuit.as_str(), given.circuit.space()) {
        return Err(stop);
    }
    if let Err(stop) = check_inputs(alloc, &given.circuit, &given.values) {
        return Err(stop);
    }
    if let Err(stop) = check_widths(alloc, &given.keys, &given.values) {
        return Err(stop);
    }
    check_limits(alloc, set, words.workers, job_bound(&given.circuit))
}

/// Whether the value file has a number for each input of the circuit.
fn check_inputs(alloc: Global, circuit: &Circuit, values: &Values) -> Result<(), Stop>
    ensures { Yields (inputs_refused (found_inputs (inputs_of circuit.now) values.now))
        (λ _. HasInputs circuit.now values.now) result }
{
    let _numbers = match find_inputs(alloc, circuit, values) {
        Ok(numbers) => numbers,
        Err(error) => return Err(stop_for_input(alloc, error)),
    };
    Ok(())
}

/// Whether the blocks of the client's set make up the bits of each line.
fn check_widths(alloc: Global, keys: &Client, values: &Values) -> Result<(), Stop>
    requires { Accepts keys.now.params }
    ensures { Yields (width_refusal keys.now values.now)
        (λ _. first_width keys.now.params.message_bits values.now ≡ None) result }
{
    match wrong_width_in(keys.params.message_bits, values.lines()) {
        Some(line) => Err(stop_for(wrong_width(alloc, line.name.as_str(), line.bits))),
        None => Ok(()),
    }
}

/// Makes keys, net, ciphertexts and outputs, and decrypts these.
fn make_trip<R: Threads + Sync, G: Gate + Sync>(
    rt: &R,
    alloc: Global,
    words: &TripWords<'_>,
    given: &Given,
    gate: &G,
) -> Result<Made, Stop>
    requires accepted { Accepts given.now.keys.params }
    requires program { IsProgram given.now.circuit }
    requires values { AreValues given.now.values }
    requires may { MayTrip words.now given.now.keys given.now.circuit given.now.values }
    ensures { Yields None (λ made. TripsWith words.now given.now.keys given.now.circuit
        given.now.values
        (trip_files words.now made.server.items made.net.items made.inputs.items
        made.outputs.items) (string_bytes made.lines)) result }
{
    circuit_way_laws();
    server_laws();
    let keys = &given.keys;
    let values = &given.values;
    let mask_seed = &words.mask_seed;
    let noise_seed = &words.noise_seed;
    let key = made_key(alloc, keys, &words.key_seed)?;
    let server = server_file(alloc, keys, &key, &words.key_seed)?;
    let net = match compiled_net(alloc, &given.circuit) {
        Ok(net) => net,
        Err(stop) => return Err(stop),
    };
    let net_file = encode_net(alloc, &net)?;
    let inputs = encrypted(alloc, keys, mask_seed, noise_seed, values)?;
    let blocks = match input_blocks(alloc, keys, mask_seed, noise_seed, values, &net) {
        Ok(blocks) => blocks,
        Err(stop) => return Err(stop),
    };
    let evaluation = evaluate(rt, alloc, &key, &net, words.workers, &blocks, gate)?;
    let outputs = encode_cipher(alloc, &evaluation.outputs)?;
    match decrypted_lines(alloc, keys, &evaluation.outputs) {
        Ok(lines) => Ok(Made {
            server,
            net: net_file,
            inputs,
            outputs,
            lines,
        }),
        Err(stop) => Err(stop),
    }
}

/// Done with the four files, and the lines to print.
fn done_with(alloc: Global, words: &TripWords<'_>, made: Made) -> Result<Done, AllocError>
    ensures writes { IfOk result (λ done. done.writes.items ≡ trip_files words.now
        made.server.items made.net.items made.inputs.items made.outputs.items) }
    ensures lines { IfOk result (λ done. string_bytes done.lines ≡ string_bytes made.lines) }
{
    let prefix = words.prefix.as_str();
    let mut done = Done::new(alloc);
    add_part(alloc, &mut done, prefix, ".server", made.server)?;
    add_part(alloc, &mut done, prefix, ".net", made.net)?;
    add_part(alloc, &mut done, prefix, ".inputs", made.inputs)?;
    add_part(alloc, &mut done, prefix, ".outputs", made.outputs)?;
    Ok(Done {
        writes: done.writes,
        lines: made.lines,
    })
}

/// Adds a file whose name is a prefix and an ending.
fn add_part(
    alloc: Global,
    done: &mut Done,
    prefix: &str,
    ending: &str,
    bytes: Vec<u8>,
) -> Result<(), AllocError>
    ensures { OnOk result (done.new.writes.items
        ≡ done.old.writes.items ++ (prefix.now ++ ending.now, bytes.items) ∷ []) }
{
    let name = format!(in alloc; "{prefix}{ending}")?;
    done.add_file(alloc, name.as_str(), bytes)
}
