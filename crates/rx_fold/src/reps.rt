//! The cell that stands for each cell.
ghost use Rattle.std.specs.Prelude.{◌≡◌, ◌+◌, ◌<◌, length, IfOk, OnOk, if◌then◌else◌, Some, is_some};
ghost use Rattle.std.specs.Option.{option_map_or};
ghost use Rattle.std.specs.Ordering.{is_eq};
ghost use Rattle.std.specs.BTreeMap.{get};
ghost use Rattle.rx_fold.specs.declared.keys.Key.{Key};
ghost use Rattle.rx_fold.specs.Folded.{rep_among, merged_by};
ghost use Rattle.rx_fold.specs.Passes.{Tells, AreForward, key_cmp};

use crate::keys::Key;
use rx_net::Job;
use std::alloc::{AllocError, Global};
use std::collections::BTreeMap;

/// For each cell the one that stands for it: itself for the cell of an input, and for a job's the cell of the
/// first job that equals it, where in both each cell is replaced by the one that stands for it.
pub(crate) fn find_reps(alloc: Global, inputs: u32, jobs: &[Job]) -> Result<Vec<u32>, AllocError>
    requires few { inputs + length jobs.now < 4294967296 }
    requires forward { AreForward inputs jobs.now }
    ensures { IfOk result (λ reps. Tells 0 (rep_among inputs (merged_by inputs jobs.now))
        (inputs + length jobs.now) reps.items) }
{
    let mut reps = input_reps(alloc, inputs)?;
    let mut firsts = BTreeMap::new(alloc);
    for job in jobs {
        let cell = reps.len() as u32;
        let key = Key::of(alloc, &reps, job)?;
        let rep = first_of(&mut firsts, key, cell)?;
        reps.push(rep)?;
    }
    Ok(reps)
}

/// Each cell of an input stands for itself.
fn input_reps(alloc: Global, inputs: u32) -> Result<Vec<u32>, AllocError>
    ensures { IfOk result (λ reps. Tells 0 (λ c. c) inputs reps.items) }
{
    let mut reps = Vec::new(alloc);
    for cell in 0..inputs {
        reps.push(cell)?;
    }
    Ok(reps)
}

/// The cell of the first job of the key: the one that the map has, else this one, which it then has.
fn first_of(firsts: &mut BTreeMap<Key, u32>, key: Key, cell: u32) -> Result<u32, AllocError>
    ensures first { IfOk result (λ first. first ≡
        option_map_or (λ first. first) (get key_cmp firsts.old key) cell) }
    ensures known { OnOk result ((k : Key) → get key_cmp firsts.new k ≡
        (if is_some (get key_cmp firsts.old key) then get key_cmp firsts.old k
        else (if is_eq (key_cmp key k) then Some cell else get key_cmp firsts.old k))) }
{
    let known = firsts.get(&key).copied();
    if let Some(first) = known {
        return Ok(first);
    }
    firsts.insert(key, cell)?;
    Ok(cell)
}
