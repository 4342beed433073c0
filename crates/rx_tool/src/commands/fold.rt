//! fold NET OUT: writes the net file of the folded net of a net, and prints its jobs and its depth.
ghost use Rattle.std.specs.Prelude.{◌≡◌, length};
ghost use Rattle.rx_tool.specs.Answers.{Answers};
ghost use Rattle.rx_tool.specs.declared.command.Command.TheVariants.{Fold};

use crate::bytes::Bytes;
use crate::commands::shared::{one_file, size_line, stop_for};
use crate::outcome::{Done, Stop};
use crate::words::Word;
use rx_codec::{CodecFault, decode_net, encode_net};
use rx_fold::fold;
use rx_net::depth;
use rx_report::malformed_binary;
use std::alloc::Global;

/// Folds a net. It refuses a malformed net file.
pub fn fold_net(
    alloc: Global,
    net: &Word<'_>,
    out: &Word<'_>,
    files: &[Bytes],
) -> Result<Done, Stop>
    requires { length files.now ≡ 1 }
    ensures { Answers (Fold net.now out.now) files.now result }
{
    let old = match decode_net(alloc, files[0].as_slice()) {
        Ok(old) => old,
        Err(CodecFault::Memory) => return Err(Stop::Memory),
        Err(fault) => return Err(stop_for(malformed_binary(alloc, net.as_str(), fault))),
    };
    let Ok(folded) = fold(alloc, old) else {
        return Err(Stop::Memory);
    };
    let bytes = encode_net(alloc, &folded)?;
    let depth = depth(alloc, &folded)?;
    let lines = size_line(alloc, folded.jobs.as_slice().len(), depth)?;
    let done = one_file(alloc, out, bytes)?;
    Ok(Done {
        writes: done.writes,
        lines,
    })
}
