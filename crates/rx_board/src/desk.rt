//! One caller's buffers.
ghost use Rattle.std.specs.Prelude.{◌≡◌, ◌*◌, ◌<◌, IfOk};

use rx_net::Net;
use std::alloc::{AllocError, Global};
use std::marker::Model;

/// The words of the operands of one job and of its cell. Contracts see it as the number of words of a cell.
#[derive(Drop)]
pub struct Desk {
    /// Places for the words of 16 operands.
    pub(crate) operands: Vec<u64>,
    /// Places for the words of a cell.
    pub(crate) out: Vec<u64>,
}

impl Model for Desk {
    ghost use Rattle.std.specs.Prelude.{◌≡◌, ◌*◌, ℕ, vec_len};

    ghost Value = { ℕ };

    ghost view = { λ d. vec_len d.out };

    ghost invariant = { λ d. vec_len d.operands ≡ 16 * vec_len d.out };
}

impl Desk {
    /// Buffers for the jobs of a net whose cells have so many words: 17 times as many. The error is want of memory.
    pub fn new(alloc: Global, net: &Net, words: usize) -> Result<Desk, AllocError>
        ensures { IfOk result (λ d. d ≡ words) }
    {
        // A legal net has at most 16 terms in each job.
        let _ = net;
        let Some(size) = words.checked_mul(16) else {
            return Err(AllocError);
        };
        Ok(Desk {
            operands: vec![in alloc; 0; size]?,
            out: vec![in alloc; 0; words]?,
        })
    }
}
