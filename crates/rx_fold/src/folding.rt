//! The call that folds a net.
ghost use Rattle.std.specs.Prelude.{◌≡◌, map, IfOk, IfErr};
ghost use Rattle.rx_net.specs.Legal.{Legal};
ghost use Rattle.rx_fold.specs.Jobs.{moved_output};
ghost use Rattle.rx_fold.specs.Folded.{anew, folded_jobs, folded};

use crate::live::find_live;
use crate::moves::{move_jobs, move_outputs};
use crate::numbers::{find_kept, renumber};
use crate::reps::find_reps;
use rx_net::{Job, Jobs, Net, NetOutput, NetOutputs};
use rx_uses::input_cells;
use std::alloc::{AllocError, Global};

/// Want of memory, with the net as it was.
#[derive(Debug, Drop)]
pub struct FoldFault {
    /// The net that was to be folded.
    pub net: Net,
}

/// What a folded net has in place of the lists of the old one.
#[derive(Drop)]
struct Lists {
    jobs: Vec<Job>,
    outputs: Vec<NetOutput>,
}

/// The folded net: of jobs that are equal the first stands for all, where in each of them each cell is
/// replaced by the one that stands for it; jobs that no output needs are left out; and the cells are numbered
/// anew. It is legal, has the inputs of the net and its outputs, and gives what the net gives (`fold_laws`).
/// The time grows as n log n with the jobs. The error hands the net back as it was.
pub fn fold(alloc: Global, net: Net) -> Result<Net, FoldFault>
    requires { Legal net }
    ensures folded { IfOk result (λ new. new ≡ folded net) }
    ensures legal { IfOk result (λ new. Legal new) }
    ensures unchanged { IfErr result (λ fault. fault.net ≡ net) }
{
    let Ok(Lists { jobs, outputs }) = fold_lists(alloc, &net) else {
        return Err(FoldFault { net });
    };
    Ok(Net {
        space: net.space,
        inputs: net.inputs,
        jobs: Jobs::from_vec(jobs),
        outputs: NetOutputs::from_vec(outputs),
    })
}

/// The jobs and outputs of the folded net.
fn fold_lists(alloc: Global, net: &Net) -> Result<Lists, AllocError>
    requires { Legal net.now }
    ensures jobs { IfOk result (λ lists. lists.jobs.items ≡ folded_jobs net.now) }
    ensures outputs { IfOk result (λ lists. lists.outputs.items
        ≡ map (moved_output (anew net.now)) net.now.outputs) }
{
    let inputs = input_cells(net);
    let jobs = net.jobs.as_slice();
    let outputs = net.outputs.as_slice();
    let reps = find_reps(alloc, inputs, jobs)?;
    let live = find_live(alloc, inputs, jobs, outputs, &reps)?;
    let kept = find_kept(alloc, inputs, &reps, &live)?;
    let cells = renumber(alloc, &kept, &reps)?;
    Ok(Lists {
        jobs: move_jobs(alloc, inputs, jobs, &kept, &cells)?,
        outputs: move_outputs(alloc, outputs, &cells)?,
    })
}
