//! client P SEED CLIENT: writes the client file of a set and a seed.
ghost use Rattle.std.specs.Prelude.{◌≡◌, length};
ghost use Rattle.rx_tool.specs.Answers.{Answers};
ghost use Rattle.rx_tool.specs.Sources.{source_reads};
ghost use Rattle.rx_tool.specs.declared.command.Command.TheVariants.{MakeClient};

use crate::bytes::Bytes;
use crate::command::Source;
use crate::commands::shared::{accepted_set, one_file};
use crate::outcome::{Done, Stop};
use crate::words::Word;
use rx_codec::{Client, encode_client};
use std::alloc::Global;

/// Makes the client file of a set that `accepted_set` gives.
pub fn make_client(
    alloc: Global,
    source: &Source<'_>,
    seed: &[u8; 32],
    client: &Word<'_>,
    files: &[Bytes],
) -> Result<Done, Stop>
    requires { length files.now ≡ length (source_reads source.now) }
    ensures { Answers (MakeClient source.now seed.now client.now) files.now result }
{
    match accepted_set(alloc, source, files) {
        Ok((params, _)) => {
            let value = Client {
                params,
                seed: *seed,
            };
            let bytes = encode_client(alloc, &value)?;
            Ok(one_file(alloc, client, bytes)?)
        }
        Err(stop) => Err(stop),
    }
}
