//! The client file.
ghost use Rattle.std.specs.Prelude.{◌≡◌, IfOk, Ok};
ghost use Rattle.rx_codec.specs.declared.client.Client.{Client};
ghost use Rattle.rx_codec.specs.ClientFile.{ClientFile, IsClient, client_bytes, client_from};

use crate::CodecFault;
use crate::params_fields::{read_params, write_params};
use crate::reader::Reader;
use rx_params::Params;
use std::alloc::{AllocError, Global};

/// What a client keeps: the set, and the seed of its secret keys.
#[derive(Clone, Copy, Debug, PartialEq, Eq)]
pub struct Client {
    /// The set, which is accepted.
    pub params: Params,
    /// What both secret keys and the noises of the server key are drawn from (`docs/FORMATS.md`, Random streams).
    pub seed: [u8; 32],
}

/// The client that a file spells, or its first fault. It takes no memory.
pub fn decode_client(bytes: &[u8]) -> Result<Client, CodecFault>
    ensures exact { result ≡ client_from bytes.now }
    ensures found { IfOk result (λ c. ClientFile bytes.now c) }
    ensures only { (c : Client) → ClientFile bytes.now c → result ≡ Ok c }
{
    read_client(bytes)
}

#[tactic(auto, unfolding(crate::specs::ClientFile::client_from))]
fn read_client(bytes: &[u8]) -> Result<Client, CodecFault>
    ensures { result ≡ client_from bytes.now }
{
    let mut reader = Reader::after_magic(bytes, b"RXC1")?;
    let params = read_params(&mut reader)?;
    let mut seed = [0; 32];
    seed.copy_from_slice(reader.bytes(32)?);
    reader.end()?;
    Ok(Client { params, seed })
}

/// The one file of a client, 76 bytes.
pub fn encode_client(alloc: Global, value: &Client) -> Result<Vec<u8>, AllocError>
    requires { IsClient value.now }
    ensures { IfOk result (λ bytes. bytes.items ≡ client_bytes value.now) }
{
    let mut out = Vec::with_capacity(alloc, 76)?;
    out.extend_from_slice(b"RXC1")?;
    write_params(&mut out, &value.params)?;
    out.extend_from_slice(&value.seed)?;
    Ok(out)
}
