//! The uses of each cell, as lists linked by index.
ghost use Rattle.std.specs.Prelude.{◌≡◌, ℕ, ◌+◌, ◌<◌, [], length, slice_index, slice_index_or, Some, None, IfOk};
ghost use Rattle.rx_net.specs.Legal.{Legal};
ghost use Rattle.rx_uses.specs.Uses.{node_at, list_of, IsUsesOf, IsLinked, Follows, TakesOut, put_first};

use crate::inputs::input_cells;
use crate::linking::{NONE, link_all, linked, put_first, take_out};
use crate::terms::list_terms;
use rx_net::Net;
use std::alloc::{AllocError, Global};
use std::marker::Model;

/// One list for each cell of a net. A node is a term of the net, by its number in the order of jobs and places; it is
/// in at most one list, and stands there once.
#[derive(Drop)]
pub struct Uses {
    /// The first node of each cell.
    heads: Vec<u32>,
    /// The node after each node.
    nexts: Vec<u32>,
    /// The node before each node.
    prevs: Vec<u32>,
    /// The cell in whose list each node is.
    homes: Vec<u32>,
    /// The job of each node.
    owners: Vec<u32>,
}

impl Model for Uses {
    ghost use Rattle.std.specs.Prelude.{◌≡◌, length};
    ghost use Rattle.rx_uses.specs.Uses.{UsesValue};
    ghost use Rattle.rx_uses.specs.Links.{walks, AreLinked};

    ghost Value = { UsesValue };

    ghost view = { λ u. record {
      lists = walks u.nexts.items u.heads.items;
      owners = u.owners.items;
    } };

    ghost invariant = { λ u. AreLinked u.nexts.items u.prevs.items u.homes.items u.heads.items
        × (length u.owners.items ≡ length u.nexts.items) };
}

impl Uses {
    /// The use lists of a legal net: each names the terms of its cell in the order of jobs and places. The error is
    /// want of memory.
    pub fn of(alloc: Global, net: &Net) -> Result<Uses, AllocError>
        requires { Legal net.now }
        ensures { IfOk result (λ uses. IsUsesOf net.now uses) }
    {
        let jobs = net.jobs.as_slice();
        let mut named = Vec::new(alloc);
        let mut owners = Vec::new(alloc);
        list_terms(jobs, &mut named, &mut owners)?;
        let cells = input_cells(net) as usize + jobs.len();
        let mut heads = vec![in alloc; NONE; cells]?;
        let mut nexts = vec![in alloc; NONE; named.len()]?;
        let mut prevs = vec![in alloc; NONE; named.len()]?;
        link_all(
            heads.as_mut_slice(),
            nexts.as_mut_slice(),
            prevs.as_mut_slice(),
            named.as_slice(),
        );
        Ok(Uses {
            heads,
            nexts,
            prevs,
            homes: named,
            owners,
        })
    }

    /// The first node of a cell, if any term names the cell.
    pub fn first(&self, cell: u32) -> Option<u32>
        requires { cell < length self.now.lists }
        ensures { result ≡ node_at (slice_index_or self.now.lists cell []) 0 }
    {
        linked(self.heads[cell as usize])
    }

    /// The node after a node that is in a list, if it is not the last.
    pub fn next(&self, node: u32) -> Option<u32>
        requires { IsLinked self.now node }
        ensures { Follows self.now node result }
    {
        linked(self.nexts[node as usize])
    }

    /// The job whose term a node is.
    pub fn owner(&self, node: u32) -> u32
        requires { node < length self.now.owners }
        ensures { result ≡ slice_index self.now.owners node }
    {
        self.owners[node as usize]
    }

    /// Takes a node that is in a list out of it.
    pub fn unlink(&mut self, node: u32)
        requires { IsLinked self.old node }
        ensures lists { TakesOut self.old node self.new.lists }
        ensures free { IsLinked self.new node → ⊥ }
        ensures owners { self.new.owners ≡ self.old.owners }
    {
        take_out(
            self.heads.as_mut_slice(),
            self.nexts.as_mut_slice(),
            self.prevs.as_mut_slice(),
            self.homes.as_slice(),
            node,
        );
    }

    /// Puts a node that is in no list before the list of a cell.
    pub fn link(&mut self, node: u32, cell: u32)
        requires node { node < length self.old.owners }
        requires cell { cell < length self.old.lists }
        requires free { IsLinked self.old node → ⊥ }
        ensures lists { self.new.lists ≡ put_first self.old node cell }
        ensures owners { self.new.owners ≡ self.old.owners }
    {
        put_first(
            self.heads.as_mut_slice(),
            self.nexts.as_mut_slice(),
            self.prevs.as_mut_slice(),
            node,
            cell,
        );
        self.homes[node as usize] = cell;
    }
}
