//! The commands, and how words name them.
ghost use Rattle.std.specs.Prelude.{◌≡◌, ◌∷◌, [], IfOk};
ghost use Rattle.rx_tool.specs.Commands.{command_of, reads_of};
ghost use Rattle.rx_tool.specs.Sources.{source_of, source_reads};
ghost use Rattle.rx_tool.specs.Check.{check_of};
ghost use Rattle.rx_tool.specs.MakeClient.{client_of, seed_of};
ghost use Rattle.rx_tool.specs.Keygen.{keygen_of};
ghost use Rattle.rx_tool.specs.Encrypt.{encrypt_of};
ghost use Rattle.rx_tool.specs.Compile.{compile_of};
ghost use Rattle.rx_tool.specs.Fold.{fold_of};
ghost use Rattle.rx_tool.specs.Run.{run_of, word_number};
ghost use Rattle.rx_tool.specs.Decrypt.{decrypt_of};
ghost use Rattle.rx_tool.specs.Trip.{trip_of, trip_with};
ghost use Rattle.rx_tool.specs.Plain.{plain_of};
ghost use Rattle.rx_tool.specs.Make.{make_of};
ghost use Rattle.rx_tool.specs.Migrate.{migrate_of};
ghost use Rattle.rx_tool.specs.Expand.{expand_of};
ghost use Rattle.rx_tool.specs.Words.{texts};

use crate::words::{Names, Word};
use hex::FromHex;
use rx_params::{Params, named};
use rx_text::Numeral;
use std::alloc::{AllocError, Global};

/// The most ciphertext files of a run.
const MOST_FILES: usize = 64;

/// Where a parameter set comes from.
#[derive(Drop)]
pub enum Source<'a> {
    /// The set of one of the four names.
    Named(Params),
    /// A file of parameter text.
    File(Word<'a>),
}

/// The words of `trip`. Seeds have 32 bytes.
#[derive(Drop)]
pub struct TripWords<'a> {
    /// The client file.
    pub client: Word<'a>,
    /// The mask seed of the server key.
    pub key_seed: [u8; 32],
    /// The mask seed of the ciphertexts.
    pub mask_seed: [u8; 32],
    /// The noise seed of the ciphertexts.
    pub noise_seed: [u8; 32],
    /// The circuit.
    pub circuit: Word<'a>,
    /// The value file.
    pub values: Word<'a>,
    /// How many workers there are, any number.
    pub workers: u64,
    /// What the names of the files that are written begin with.
    pub prefix: Word<'a>,
}

/// A command with its words, in their order. `P` is a set's name or the name of a file; seeds have 32 bytes.
#[derive(Drop)]
pub enum Command<'a> {
    /// `check P`.
    Check(Source<'a>),
    /// `client P SEED CLIENT`.
    MakeClient(Source<'a>, [u8; 32], Word<'a>),
    /// `keygen CLIENT MASKSEED SERVER`.
    Keygen(Word<'a>, [u8; 32], Word<'a>),
    /// `encrypt CLIENT MASKSEED NOISESEED VALUES OUT`.
    Encrypt(Word<'a>, [u8; 32], [u8; 32], Word<'a>, Word<'a>),
    /// `compile CIRCUIT NET`.
    Compile(Word<'a>, Word<'a>),
    /// `fold NET OUT`.
    Fold(Word<'a>, Word<'a>),
    /// `run SERVER NET WORKERS OUT IN..`, with any number of workers and up to 64 names of inputs.
    Run(Word<'a>, Word<'a>, u64, Word<'a>, Names<'a>),
    /// `decrypt CLIENT IN`.
    Decrypt(Word<'a>, Word<'a>),
    /// `trip CLIENT KEYSEED MASKSEED NOISESEED CIRCUIT VALUES WORKERS PREFIX`.
    Trip(TripWords<'a>),
    /// `plain CIRCUIT VALUES`.
    Plain(Word<'a>, Word<'a>),
    /// `make NUMBER CIRCUIT VALUES`.
    Make(u64, Word<'a>, Word<'a>),
    /// `migrate MASKSEED IN OUT`.
    Migrate([u8; 32], Word<'a>, Word<'a>),
    /// `expand IN OUT`.
    Expand(Word<'a>, Word<'a>),
}

/// The command of some words, None where they are no command.
pub fn parse(words: &[String]) -> Option<Command<'_>>
    ensures { result ≡ command_of (texts words.now) }
{
    let (word, arguments) = words.split_first()?;
    let word = word.as_str();
    if word == "check" {
        parse_check(arguments)
    } else if word == "client" {
        parse_client(arguments)
    } else if word == "keygen" {
        parse_keygen(arguments)
    } else if word == "encrypt" {
        parse_encrypt(arguments)
    } else if word == "compile" {
        parse_compile(arguments)
    } else if word == "fold" {
        parse_fold(arguments)
    } else if word == "run" {
        parse_run(arguments)
    } else if word == "decrypt" {
        parse_decrypt(arguments)
    } else if word == "trip" {
        parse_trip(arguments)
    } else if word == "plain" {
        parse_plain(arguments)
    } else if word == "make" {
        parse_make(arguments)
    } else if word == "migrate" {
        parse_migrate(arguments)
    } else if word == "expand" {
        parse_expand(arguments)
    } else {
        None
    }
}

fn parse_source(word: &str) -> Source<'_>
    ensures { result ≡ source_of word.now }
{
    match named(word) {
        Some(set) => Source::Named(set),
        None => Source::File(Word::new(word)),
    }
}

/// A seed is a word of 64 hexadecimal digits, in either case.
fn parse_seed(word: &str) -> Option<[u8; 32]>
    ensures { result ≡ seed_of word.now }
{
    <[u8; 32] as FromHex>::from_hex(word).ok()
}

/// A number is a numeral below 2^64.
fn parse_number(word: &str) -> Option<u64>
    ensures { result ≡ word_number word.now }
{
    match Numeral::of(word.as_bytes()) {
        Some(Numeral::Word(number)) => Some(number),
        _ => None,
    }
}

fn parse_check(arguments: &[String]) -> Option<Command<'_>>
    ensures { result ≡ check_of (texts arguments.now) }
{
    match arguments {
        [source] => Some(Command::Check(parse_source(source.as_str()))),
        _ => None,
    }
}

fn parse_client(arguments: &[String]) -> Option<Command<'_>>
    ensures { result ≡ client_of (texts arguments.now) }
{
    match arguments {
        [source, seed, client] => {
            let seed = parse_seed(seed.as_str())?;
            let source = parse_source(source.as_str());
            Some(Command::MakeClient(source, seed, Word::new(client.as_str())))
        }
        _ => None,
    }
}

fn parse_keygen(arguments: &[String]) -> Option<Command<'_>>
    ensures { result ≡ keygen_of (texts arguments.now) }
{
    match arguments {
        [client, mask_seed, server] => {
            let mask_seed = parse_seed(mask_seed.as_str())?;
            Some(Command::Keygen(
                Word::new(client.as_str()),
                mask_seed,
                Word::new(server.as_str()),
            ))
        }
        _ => None,
    }
}

fn parse_encrypt(arguments: &[String]) -> Option<Command<'_>>
    ensures { result ≡ encrypt_of (texts arguments.now) }
{
    match arguments {
        [client, mask_seed, noise_seed, values, out] => {
            let mask_seed = parse_seed(mask_seed.as_str())?;
            let noise_seed = parse_seed(noise_seed.as_str())?;
            Some(Command::Encrypt(
                Word::new(client.as_str()),
                mask_seed,
                noise_seed,
                Word::new(values.as_str()),
                Word::new(out.as_str()),
            ))
        }
        _ => None,
    }
}

fn parse_compile(arguments: &[String]) -> Option<Command<'_>>
    ensures { result ≡ compile_of (texts arguments.now) }
{
    match arguments {
        [circuit, net] => Some(Command::Compile(
            Word::new(circuit.as_str()),
            Word::new(net.as_str()),
        )),
        _ => None,
    }
}

fn parse_fold(arguments: &[String]) -> Option<Command<'_>>
    ensures { result ≡ fold_of (texts arguments.now) }
{
    match arguments {
        [net, out] => Some(Command::Fold(Word::new(net.as_str()), Word::new(out.as_str()))),
        _ => None,
    }
}

fn parse_run(arguments: &[String]) -> Option<Command<'_>>
    ensures { result ≡ run_of (texts arguments.now) }
{
    match arguments {
        [server, net, workers, out, inputs @ ..] => {
            if inputs.len() > MOST_FILES {
                return None;
            }
            let workers = parse_number(workers.as_str())?;
            Some(Command::Run(
                Word::new(server.as_str()),
                Word::new(net.as_str()),
                workers,
                Word::new(out.as_str()),
                Names::new(inputs),
            ))
        }
        _ => None,
    }
}

fn parse_decrypt(arguments: &[String]) -> Option<Command<'_>>
    ensures { result ≡ decrypt_of (texts arguments.now) }
{
    match arguments {
        [client, input] => Some(Command::Decrypt(
            Word::new(client.as_str()),
            Word::new(input.as_str()),
        )),
        _ => None,
    }
}

fn parse_trip(arguments: &[String]) -> Option<Command<'_>>
    ensures { result ≡ trip_of (texts arguments.now) }
{
    match arguments {
        [client, key_seed, mask_seed, noise_seed, rest @ ..] => {
            let key_seed = parse_seed(key_seed.as_str())?;
            let mask_seed = parse_seed(mask_seed.as_str())?;
            let noise_seed = parse_seed(noise_seed.as_str())?;
            parse_trip_with(client.as_str(), key_seed, mask_seed, noise_seed, rest)
        }
        _ => None,
    }
}

/// The command of a client, three seeds and the words after them.
fn parse_trip_with<'a>(
    client: &'a str,
    key_seed: [u8; 32],
    mask_seed: [u8; 32],
    noise_seed: [u8; 32],
    rest: &'a [String],
) -> Option<Command<'a>>
    ensures { result ≡ trip_with client.now key_seed mask_seed noise_seed (texts rest.now) }
{
    match rest {
        [circuit, values, workers, prefix] => {
            let workers = parse_number(workers.as_str())?;
            Some(Command::Trip(TripWords {
                client: Word::new(client),
                key_seed,
                mask_seed,
                noise_seed,
                circuit: Word::new(circuit.as_str()),
                values: Word::new(values.as_str()),
                workers,
                prefix: Word::new(prefix.as_str()),
            }))
        }
        _ => None,
    }
}

fn parse_plain(arguments: &[String]) -> Option<Command<'_>>
    ensures { result ≡ plain_of (texts arguments.now) }
{
    match arguments {
        [circuit, values] => Some(Command::Plain(
            Word::new(circuit.as_str()),
            Word::new(values.as_str()),
        )),
        _ => None,
    }
}

fn parse_make(arguments: &[String]) -> Option<Command<'_>>
    ensures { result ≡ make_of (texts arguments.now) }
{
    match arguments {
        [number, circuit, values] => {
            let number = parse_number(number.as_str())?;
            Some(Command::Make(
                number,
                Word::new(circuit.as_str()),
                Word::new(values.as_str()),
            ))
        }
        _ => None,
    }
}

fn parse_migrate(arguments: &[String]) -> Option<Command<'_>>
    ensures { result ≡ migrate_of (texts arguments.now) }
{
    match arguments {
        [mask_seed, input, out] => {
            let mask_seed = parse_seed(mask_seed.as_str())?;
            Some(Command::Migrate(
                mask_seed,
                Word::new(input.as_str()),
                Word::new(out.as_str()),
            ))
        }
        _ => None,
    }
}

fn parse_expand(arguments: &[String]) -> Option<Command<'_>>
    ensures { result ≡ expand_of (texts arguments.now) }
{
    match arguments {
        [input, out] => Some(Command::Expand(Word::new(input.as_str()), Word::new(out.as_str()))),
        _ => None,
    }
}

impl<'a> Command<'a> {
    ghost use Rattle.rx_tool.specs.Commands.{reads_of};

    /// The names of the files that the command reads, in order.
    pub fn reads(&self, alloc: Global) -> Result<Vec<Word<'a>>, AllocError>
        ensures { IfOk result (λ names. names.items ≡ reads_of self.now) }
    {
        match self {
            Command::Check(source) => source.reads(alloc),
            Command::MakeClient(source, _, _) => source.reads(alloc),
            Command::Keygen(client, _, _) => one(alloc, client),
            Command::Encrypt(client, _, _, values, _) => both(alloc, client, values),
            Command::Compile(circuit, _) => one(alloc, circuit),
            Command::Fold(net, _) => one(alloc, net),
            Command::Run(server, net, _, _, inputs) => both_and(alloc, server, net, inputs),
            Command::Decrypt(client, input) => both(alloc, client, input),
            Command::Trip(words) => three(alloc, &words.client, &words.circuit, &words.values),
            Command::Plain(circuit, values) => both(alloc, circuit, values),
            Command::Make(_, _, _) => Ok(Vec::new(alloc)),
            Command::Migrate(_, input, _) => one(alloc, input),
            Command::Expand(input, _) => one(alloc, input),
        }
    }
}

impl<'a> Source<'a> {
    ghost use Rattle.rx_tool.specs.Sources.{source_reads};

    fn reads(&self, alloc: Global) -> Result<Vec<Word<'a>>, AllocError>
        ensures { IfOk result (λ names. names.items ≡ source_reads self.now) }
    {
        let mut names = Vec::new(alloc);
        if let Source::File(name) = self {
            names.push(Word::new(name.as_str()))?;
        }
        Ok(names)
    }
}

fn one<'a>(alloc: Global, name: &Word<'a>) -> Result<Vec<Word<'a>>, AllocError>
    ensures { IfOk result (λ names. names.items ≡ name.now ∷ []) }
{
    let mut names = Vec::new(alloc);
    names.push(Word::new(name.as_str()))?;
    Ok(names)
}

fn both<'a>(alloc: Global, first: &Word<'a>, second: &Word<'a>) -> Result<Vec<Word<'a>>, AllocError>
    ensures { IfOk result (λ names. names.items ≡ first.now ∷ second.now ∷ []) }
{
    let mut names = Vec::new(alloc);
    names.push(Word::new(first.as_str()))?;
    names.push(Word::new(second.as_str()))?;
    Ok(names)
}

fn three<'a>(
    alloc: Global,
    first: &Word<'a>,
    second: &Word<'a>,
    third: &Word<'a>,
) -> Result<Vec<Word<'a>>, AllocError>
    ensures { IfOk result (λ names. names.items ≡ first.now ∷ second.now ∷ third.now ∷ []) }
{
    let mut names = both(alloc, first, second)?;
    names.push(Word::new(third.as_str()))?;
    Ok(names)
}

fn both_and<'a>(
    alloc: Global,
    first: &Word<'a>,
    second: &Word<'a>,
    others: &Names<'a>,
) -> Result<Vec<Word<'a>>, AllocError>
    ensures { IfOk result (λ names. names.items ≡ first.now ∷ second.now ∷ others.now) }
{
    let mut names = both(alloc, first, second)?;
    for word in others.words() {
        names.push(Word::new(word.as_str()))?;
    }
    Ok(names)
}
