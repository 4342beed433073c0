//! keygen CLIENT MASKSEED SERVER: writes the seeded server file of a client's key.
ghost use Rattle.std.specs.Prelude.{◌≡◌, length};
ghost use Rattle.rx_tool.specs.Answers.{Answers};
ghost use Rattle.rx_tool.specs.declared.command.Command.TheVariants.{Keygen};

use crate::bytes::Bytes;
use crate::commands::shared::{one_file, stop_for};
use crate::outcome::{Done, Stop};
use crate::words::Word;
use rx_codec::decode_client;
use rx_report::malformed_binary;
use rx_seeded::encode_fresh_server;
use std::alloc::Global;

/// Makes the seeded server file of a client. It refuses a malformed client file.
pub fn make_server(
    alloc: Global,
    client: &Word<'_>,
    mask_seed: &[u8; 32],
    server: &Word<'_>,
    files: &[Bytes],
) -> Result<Done, Stop>
    requires { length files.now ≡ 1 }
    ensures { Answers (Keygen client.now mask_seed.now server.now) files.now result }
{
    let keys = match decode_client(files[0].as_slice()) {
        Ok(keys) => keys,
        Err(fault) => return Err(stop_for(malformed_binary(alloc, client.as_str(), fault))),
    };
    let bytes = encode_fresh_server(alloc, &keys.params, &keys.seed, mask_seed)?;
    Ok(one_file(alloc, server, bytes)?)
}
