//! The lines of refusals. A file has the name that the words of the command give it.
ghost use Rattle.std.specs.Prelude.{◌≡◌, IfOk, Some, string_bytes};
ghost use Rattle.rx_params.specs.declared.params.Params.{Params};
ghost use Rattle.rx_report.specs.Reports.{too_long, malformed_text, not_accepted, malformed_binary, illegal_net, net_words, mismatch, wrong_mask, wrong_width, damaged, wrong_input, wrong_workers, many_jobs, wide_board, cause_word, field_word};

use crate::difference::Difference;
use crate::{Kind, Refusal};
use rx_client::Damage;
use rx_codec::CodecFault;
use rx_net::NetFault;
use rx_params::{LineCause, LineFault, Refused};
use rx_server::InputFault;
use std::alloc::{AllocError, Global};

/// A file that is longer than the limit, with its length in bytes.
pub fn too_long(alloc: Global, name: &str, size: u64) -> Result<Refusal, AllocError>
    ensures { IfOk result (λ refusal. refusal ≡ too_long name.now size) }
{
    let line = format!(in alloc; "limit file {name} {size}\n")?;
    Ok(Refusal::new(Kind::Limit, line))
}

/// A text that has not its format.
pub fn malformed_text(alloc: Global, name: &str, fault: LineFault) -> Result<Refusal, AllocError>
    ensures { IfOk result (λ refusal. refusal ≡ malformed_text name.now fault) }
{
    let number = fault.line;
    let cause = cause_word(fault.cause);
    let line = format!(in alloc; "malformed {name} line {number} {cause}\n")?;
    Ok(Refusal::new(Kind::Malformed, line))
}

fn cause_word(cause: LineCause) -> &'static str
    ensures { result.now ≡ cause_word cause }
{
    match cause {
        LineCause::Form => "form",
        LineCause::Number => "number",
        LineCause::Unknown => "unknown",
        LineCause::Kind => "kind",
        LineCause::Again => "again",
        LineCause::Limit => "limit",
    }
}

/// A set that is not accepted.
pub fn not_accepted(alloc: Global, refused: Refused) -> Result<Refusal, AllocError>
    ensures { IfOk result (λ refusal. refusal ≡ not_accepted refused) }
{
    let line = match refused {
        Refused::Limit { field, value } => {
            let word = field_word(field);
            format!(in alloc; "refused limit {word} {value}\n")?
        }
        Refused::NarrowBox { n, p } => format!(in alloc; "refused box {n} {p}\n")?,
        Refused::Noise { left, right } => format!(in alloc; "refused noise {left} {right}\n")?,
    };
    Ok(Refusal::new(Kind::NotAccepted, line))
}

/// The name of a field by its place from 1, `key_words` after the tenth.
fn field_word(field: u32) -> &'static str
    ensures { result.now ≡ field_word field }
{
    match field {
        0 | 1 => "message_bits",
        2 => "glwe_dim",
        3 => "poly_size",
        4 => "lwe_dim",
        5 => "pbs_base_log",
        6 => "pbs_level",
        7 => "ks_base_log",
        8 => "ks_level",
        9 => "glwe_bound",
        10 => "lwe_bound",
        _ => "key_words",
    }
}

/// A binary file that has not its format, whose set is not accepted, or whose net is not legal. Want of memory is
/// answered as such.
pub fn malformed_binary(alloc: Global, name: &str, fault: CodecFault) -> Result<Refusal, AllocError>
    ensures { IfOk result (λ refusal. malformed_binary name.now fault ≡ Some refusal) }
{
    let line = match fault {
        CodecFault::Magic => format!(in alloc; "malformed {name} magic\n")?,
        CodecFault::Short { need, have } => {
            format!(in alloc; "malformed {name} short {need} {have}\n")?
        }
        CodecFault::Long { extra } => format!(in alloc; "malformed {name} long {extra}\n")?,
        CodecFault::Field { at } => format!(in alloc; "malformed {name} field {at}\n")?,
        CodecFault::Params(refused) => return not_accepted(alloc, refused),
        CodecFault::Net(fault) => return illegal_net(alloc, name, fault),
        CodecFault::Memory => return Err(AllocError),
    };
    Ok(Refusal::new(Kind::Malformed, line))
}

/// A net that is not legal.
fn illegal_net(alloc: Global, name: &str, fault: NetFault) -> Result<Refusal, AllocError>
    ensures { IfOk result (λ refusal. refusal ≡ illegal_net name.now fault) }
{
    let words = net_words(alloc, fault)?;
    let words = words.as_str();
    let line = format!(in alloc; "malformed {name} net {words}")?;
    Ok(Refusal::new(Kind::Malformed, line))
}

/// The end of the line of a net, from its fault on.
fn net_words(alloc: Global, fault: NetFault) -> Result<String, AllocError>
    ensures { IfOk result (λ words. string_bytes words ≡ net_words fault) }
{
    match fault {
        NetFault::Forward { job } => format!(in alloc; "forward {job}\n"),
        NetFault::Range { job, low, high } => format!(in alloc; "range {job} {low} {high}\n"),
        NetFault::Noise { job, sum } => format!(in alloc; "noise {job} {sum}\n"),
        NetFault::Table { job } => format!(in alloc; "table {job}\n"),
        NetFault::Degree {
            job,
            declared,
            reached,
        } => format!(in alloc; "degree {job} {declared} {reached}\n"),
        NetFault::Output { index } => format!(in alloc; "output {index}\n"),
        NetFault::Limit { field, value } => format!(in alloc; "limit {field} {value}\n"),
    }
}

/// A file whose set differs from that of the first file.
pub fn mismatch(alloc: Global, name: &str, difference: Difference) -> Result<Refusal, AllocError>
    ensures { IfOk result (λ refusal. refusal ≡ mismatch name.now difference) }
{
    let field = field_word(difference.field);
    let first = difference.first;
    let other = difference.other;
    let line = format!(in alloc; "mismatch {name} {field} {first} {other}\n")?;
    Ok(Refusal::new(Kind::Mismatch, line))
}

/// A mask word that a seed does not draw, by its place in bytes in the file.
pub fn wrong_mask(alloc: Global, name: &str, at: u64) -> Result<Refusal, AllocError>
    ensures { IfOk result (λ refusal. refusal ≡ wrong_mask name.now at) }
{
    let line = format!(in alloc; "seed {name} {at}\n")?;
    Ok(Refusal::new(Kind::Seed, line))
}

/// A number of a value file whose bits are no multiple of the message bits.
pub fn wrong_width(alloc: Global, name: &str, bits: u32) -> Result<Refusal, AllocError>
    ensures { IfOk result (λ refusal. refusal ≡ wrong_width name.now bits) }
{
    let line = format!(in alloc; "inputs {name} width {bits}\n")?;
    Ok(Refusal::new(Kind::Inputs, line))
}

/// A block that decodes to a number above its degree.
pub fn damaged(alloc: Global, damage: &Damage) -> Result<Refusal, AllocError>
    ensures { IfOk result (λ refusal. refusal ≡ damaged damage.now) }
{
    let name = damage.name.as_str();
    let block = damage.block;
    let decoded = damage.decoded;
    let degree = damage.degree;
    let line = format!(in alloc; "damaged {name} {block} {decoded} {degree}\n")?;
    Ok(Refusal::new(Kind::Damaged, line))
}

/// An input of a net that the files do not give as the net wants it.
pub fn wrong_input(alloc: Global, fault: InputFault) -> Result<Refusal, AllocError>
    ensures { IfOk result (λ refusal. refusal ≡ wrong_input fault) }
{
    let line = match fault {
        InputFault::Missing(name) => {
            let name = name.as_str();
            format!(in alloc; "inputs {name} missing\n")?
        }
        InputFault::Twice(name) => {
            let name = name.as_str();
            format!(in alloc; "inputs {name} twice\n")?
        }
        InputFault::Form(name) => {
            let name = name.as_str();
            format!(in alloc; "inputs {name} form\n")?
        }
        InputFault::Degree { name, value, limit } => {
            let name = name.as_str();
            format!(in alloc; "inputs {name} degree {value} {limit}\n")?
        }
        InputFault::Noise { name, value, limit } => {
            let name = name.as_str();
            format!(in alloc; "inputs {name} noise {value} {limit}\n")?
        }
    };
    Ok(Refusal::new(Kind::Inputs, line))
}

/// A number of workers outside its limits, 1 to 64.
pub fn wrong_workers(alloc: Global, count: u64) -> Result<Refusal, AllocError>
    ensures { IfOk result (λ refusal. refusal ≡ wrong_workers count) }
{
    let line = format!(in alloc; "limit workers {count}\n")?;
    Ok(Refusal::new(Kind::Limit, line))
}

/// More jobs than a net may have.
pub fn many_jobs(alloc: Global, count: u64) -> Result<Refusal, AllocError>
    ensures { IfOk result (λ refusal. refusal ≡ many_jobs count) }
{
    let line = format!(in alloc; "limit jobs {count}\n")?;
    Ok(Refusal::new(Kind::Limit, line))
}

/// A net whose board takes more words of 64 bits than the limit of a run.
pub fn wide_board(alloc: Global, words: u64) -> Result<Refusal, AllocError>
    ensures { IfOk result (λ refusal. refusal ≡ wide_board words) }
{
    let line = format!(in alloc; "limit board {words}\n")?;
    Ok(Refusal::new(Kind::Limit, line))
}
