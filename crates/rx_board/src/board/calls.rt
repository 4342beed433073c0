//! The calls by callers' seats.
ghost use Rattle.std.specs.Prelude.{◌≡◌, ◌≢◌, ℕ, ◌<◌, ◌≤◌, length, Contains, true, false, None};
ghost use Rattle.rx_board.specs.Seats.{IsOf};
ghost use Rattle.rx_board.specs.Rule.{job_count, cell};
ghost use Rattle.rx_board.specs.Steps.{given, both_of};
ghost use Rattle.rx_board.specs.Tells.{Grows, Keeps, MetSince, Told, runs_after, IsLastRun, FaultsAfter};

use super::Board;
use crate::desk::Desk;
use crate::kernel::Kernel;
use crate::seat::Seat;
use crate::view::Step;
use std::sync::Wait;

impl<'a, K: Kernel> Board<'a, K> {
    /// One more seat, which knows what this one knows and ran no job.
    pub fn split(&self, seat: &mut Seat) -> Seat
        requires { IsOf self.now seat.old }
        ensures kept { seat.new ≡ seat.old }
        ensures made { IsOf self.now result × (result.view ≡ given seat.old.view) }
    {
        let inner = self.split_raw(&mut seat.inner);
        Seat {
            inner,
            below: seat.below,
        }
    }

    /// Takes another seat into this one, which then knows what both knew, and ran what both ran.
    pub fn join(&self, seat: &mut Seat, other: Seat)
        requires seat { IsOf self.now seat.old }
        requires other { IsOf self.now other }
        ensures seat { IsOf self.now seat.new × (seat.new.id ≡ seat.old.id) }
        ensures view { seat.new.view ≡ both_of seat.old.view other.view }
    {
        let Seat { inner, below: _ } = other;
        self.join_raw(&mut seat.inner, inner);
    }

    /// Claims, runs and publishes at most one job, whose operands are present. It takes no memory and does not wait.
    /// The kernel has the board's basis, space and width, and the desk was made for the board's width. Of the free and
    /// ready jobs it takes the one with the least number that it finds; no clause says so.
    pub fn step(&self, seat: &mut Seat, desk: &mut Desk, kernel: &mut K) -> Step
        requires seat { IsOf self.now seat.old }
        requires desk { desk.old ≡ self.now.plan.width }
        requires kernel { (K.basis kernel.old ≡ self.now.basis)
            × (K.width kernel.old ≡ self.now.plan.width)
            × (K.space kernel.old ≡ self.now.plan.net.space) }
        requires told { K.told kernel.old None }
        ensures seat { IsOf self.now seat.new × (seat.new.id ≡ seat.old.id) }
        ensures keeps { Keeps seat.old.view seat.new.view }
        ensures told { Told self.now.plan seat.old.view seat.new.view result }
        ensures desk { desk.new ≡ desk.old }
        ensures kernel { (K.basis kernel.new ≡ K.basis kernel.old)
            × (K.width kernel.new ≡ K.width kernel.old)
            × (K.space kernel.new ≡ K.space kernel.old) }
        ensures last { IsLastRun (K.last kernel.new) result }
        ensures idle { K.told kernel.new None }
        ensures runs { K.runs kernel.new ≡ runs_after result (K.runs kernel.old) }
        ensures faults { K.faults kernel.old ≤ K.faults kernel.new }
        ensures refused { FaultsAfter result (K.faults kernel.old) (K.faults kernel.new) }
    {
        let below = self.known_from(&mut seat.inner, seat.below);
        seat.below = below;
        self.step_from(&mut seat.inner, below, desk, kernel)
    }

    /// The words of a job's cell, where it is present, else false with `out` as it was. It takes no memory and does
    /// not wait.
    pub fn read(&self, seat: &mut Seat, job: u32, out: &mut [u64]) -> bool
        requires seat { IsOf self.now seat.old }
        requires job { job < job_count self.now.plan }
        requires room { length out.old ≡ self.now.plan.width }
        ensures seat { IsOf self.now seat.new × (seat.new.id ≡ seat.old.id) }
        ensures grows { Grows seat.old.view seat.new.view }
        ensures words { result ≡ true → out.new ≡ cell self.now.plan job }
        ensures missing { result ≡ false → (out.new ≡ out.old)
            × ((r : ℕ) × (r ≢ 2) × MetSince seat.old.view seat.new.view job r) }
        ensures known { Contains seat.old.view.known job → result ≡ true }
    {
        self.read_cell(&mut seat.inner, job, out)
    }

    /// Reads a job's cell once it is present. It may wait for ever.
    pub fn await_cell<R: Wait>(&self, rt: &R, seat: &mut Seat, job: u32, out: &mut [u64])
        requires seat { IsOf self.now seat.old }
        requires job { job < job_count self.now.plan }
        requires room { length out.old ≡ self.now.plan.width }
        ensures seat { IsOf self.now seat.new × (seat.new.id ≡ seat.old.id) }
        ensures grows { Grows seat.old.view seat.new.view }
        ensures words { out.new ≡ cell self.now.plan job }
    {
        for _ in rt.forever() {
            if self.read(seat, job, out) {
                return;
            }
        }
        unreachable!()
    }
}
