//! The net file.
ghost use Rattle.std.specs.Prelude.{◌≡◌, IfOk, Ok};
ghost use Rattle.rx_net.specs.declared.net.Net.{Net};
ghost use Rattle.rx_net.specs.Legal.{Legal};
ghost use Rattle.rx_codec.specs.Reading.{Gives};
ghost use Rattle.rx_codec.specs.NetFile.{NetFile, net_from};

use crate::CodecFault;
use crate::net_reading::read_spelled;
use crate::net_writing::{write_inputs, write_jobs, write_outputs};
use rx_net::{Net, legal, net_laws};
use std::alloc::{AllocError, Global};

/// The net that a file spells, or its first fault; `CodecFault::Net` comes after all others.
pub fn decode_net(alloc: Global, bytes: &[u8]) -> Result<Net, CodecFault>
    ensures exact { Gives (λ net. net) result (net_from bytes.now) }
    ensures found { IfOk result (λ net. NetFile bytes.now net) }
    ensures only { (net : Net) → NetFile bytes.now net → Gives (λ net. net) result (Ok net) }
{
    // The clauses `found` and `only` rest on the laws of legal nets.
    net_laws();
    read_net(alloc, bytes)
}

#[tactic(auto, unfolding(crate::specs::NetFile::net_from))]
fn read_net(alloc: Global, bytes: &[u8]) -> Result<Net, CodecFault>
    ensures { Gives (λ net. net) result (net_from bytes.now) }
{
    let net = read_spelled(alloc, bytes)?;
    match legal(&net) {
        Ok(()) => Ok(net),
        Err(fault) => Err(CodecFault::Net(fault)),
    }
}

/// The one file of a legal net.
pub fn encode_net(alloc: Global, value: &Net) -> Result<Vec<u8>, AllocError>
    requires { Legal value.now }
    ensures { IfOk result (λ bytes. NetFile bytes.items value.now) }
{
    let mut out = Vec::from_slice(alloc, b"RXN1")?;
    out.push(value.space as u8)?;
    write_inputs(&mut out, value.inputs.as_slice())?;
    write_jobs(&mut out, value.jobs.as_slice())?;
    write_outputs(&mut out, value.outputs.as_slice())?;
    Ok(out)
}
