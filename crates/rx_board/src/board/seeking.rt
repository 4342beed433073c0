//! The search for a job that is free and ready.
ghost use Rattle.std.specs.Prelude.{◌≡◌, ℕ, ◌<◌, ◌≤◌, length, Contains, true, false, None};
ghost use Rattle.rx_uses.specs.Cells.{terms_at};
ghost use Rattle.rx_board.specs.declared.view.Trial.TheVariants.{Claimed};
ghost use Rattle.rx_board.specs.Seats.{IsSeatOf, IsIdleSeatOf};
ghost use Rattle.rx_board.specs.Rule.{job_count, IsOperandAt};
ghost use Rattle.rx_board.specs.Steps.{IsReady};
ghost use Rattle.rx_board.specs.Tells.{Grows, Keeps, WaitsFor, Tried, Hunted, Sought, Told, first_taken, runs_after, IsLastRun, FaultsAfter};

use super::Board;
use crate::desk::Desk;
use crate::kernel::Kernel;
use crate::view::{RawSeat, Seek, Step, Trial};

impl<'a, K: Kernel> Board<'a, K> {
    /// Whether the operand at a place of a job is an input or present.
    fn has_operand(&self, seat: &mut RawSeat, job: u32, place: usize) -> bool
        requires seat { IsIdleSeatOf self.now seat.old }
        requires job { job < job_count self.now.plan }
        requires place { place < length (terms_at self.now.plan.net.jobs job) }
        ensures seat { IsIdleSeatOf self.now seat.new × (seat.new.id ≡ seat.old.id) }
        ensures grows { Grows seat.old.me.0 seat.new.me.0 }
        ensures there { result ≡ true → (o : ℕ) → IsOperandAt self.now.plan job place o
            → Contains seat.new.me.0.known o }
        ensures waits { result ≡ false
            → WaitsFor self.now.plan seat.old.me.0 seat.new.me.0 job place }
    {
        let inputs = self.input_count();
        let named = self.job(job).terms.as_slice()[place].cell;
        named < inputs || self.look(seat, named - inputs) == 2
    }

    /// Whether each operand job of a job is present.
    fn is_ready(&self, seat: &mut RawSeat, job: u32) -> bool
        requires seat { IsIdleSeatOf self.now seat.old }
        requires job { job < job_count self.now.plan }
        ensures seat { IsIdleSeatOf self.now seat.new × (seat.new.id ≡ seat.old.id) }
        ensures grows { Grows seat.old.me.0 seat.new.me.0 }
        ensures ready { result ≡ true → IsReady self.now.plan seat.new.me.0 job }
        ensures waits { result ≡ false → (k : ℕ)
            × WaitsFor self.now.plan seat.old.me.0 seat.new.me.0 job k }
    {
        let count = self.job(job).terms.as_slice().len();
        for place in 0..count {
            if !self.has_operand(seat, job, place) {
                return false;
            }
        }
        true
    }

    /// Whether the count of a job is 0.
    fn is_due(&self, seat: &mut RawSeat, job: u32) -> bool
        requires seat { IsIdleSeatOf self.now seat.old }
        requires job { job < job_count self.now.plan }
        ensures seat { IsIdleSeatOf self.now seat.new × (seat.new.id ≡ seat.old.id) }
        ensures grows { Grows seat.old.me.0 seat.new.me.0 }
        ensures ready { result ≡ true → Contains seat.new.me.0.ready job }
        ensures waits { result ≡ false → (k : ℕ)
            × WaitsFor self.now.plan seat.old.me.0 seat.new.me.0 job k }
    {
        if self.look_count(seat, job) == 0 {
            return true;
        }
        if !self.is_ready(seat, job) {
            return false;
        }
        self.look_count(seat, job);
        true
    }

    /// Takes the job, where it is free and ready.
    fn try_job(&self, seat: &mut RawSeat, job: u32) -> Trial
        requires seat { IsIdleSeatOf self.now seat.old }
        requires job { job < job_count self.now.plan }
        ensures seat { IsSeatOf self.now seat.new × (seat.new.id ≡ seat.old.id) }
        ensures grows { Grows seat.old.me.0 seat.new.me.0 }
        ensures tried { Tried self.now.plan seat.old.me.0 seat.new.me.0 job result }
    {
        let state = self.look(seat, job);
        if state == 2 {
            return Trial::Present;
        }
        if state == 1 {
            return Trial::Taken;
        }
        if !self.is_due(seat, job) {
            return Trial::Waiting;
        }
        let found = self.claim(seat, job);
        if found == 0 {
            return Trial::Claimed;
        }
        if found == 1 {
            return Trial::Taken;
        }
        Trial::Present
    }

    /// Takes the job, where it is free and its count is 0.
    fn try_due(&self, seat: &mut RawSeat, job: u32) -> bool
        requires seat { IsIdleSeatOf self.now seat.old }
        requires job { job < job_count self.now.plan }
        ensures seat { IsSeatOf self.now seat.new × (seat.new.id ≡ seat.old.id) }
        ensures grows { Grows seat.old.me.0 seat.new.me.0 }
        ensures tried { result ≡ true
            → Tried self.now.plan seat.old.me.0 seat.new.me.0 job Claimed }
        ensures missed { result ≡ false → seat.new.me.0.held ≡ None }
    {
        if self.look(seat, job) != 0 {
            return false;
        }
        if self.look_count(seat, job) != 0 {
            return false;
        }
        let found = self.claim(seat, job);
        if found != 0 {
            return false;
        }
        true
    }

    /// Takes the first job from a place on that is free and has the count 0.
    fn hunt(&self, seat: &mut RawSeat, from: u32) -> Option<u32>
        requires seat { IsIdleSeatOf self.now seat.old }
        ensures seat { IsSeatOf self.now seat.new × (seat.new.id ≡ seat.old.id) }
        ensures grows { Grows seat.old.me.0 seat.new.me.0 }
        ensures hunted { Hunted self.now.plan seat.old.me.0 seat.new.me.0 result }
    {
        for job in from..self.job_count() {
            if self.try_due(seat, job) {
                return Some(job);
            }
        }
        None
    }

    /// Takes the first job that is free and ready, where those before a place are known, or finds a cause for each job
    /// that is not known.
    fn seek(&self, seat: &mut RawSeat, from: u32) -> Seek
        requires seat { IsIdleSeatOf self.now seat.old }
        requires known { (j : ℕ) → j < from → Contains seat.old.me.0.known j }
        ensures seat { IsSeatOf self.now seat.new × (seat.new.id ≡ seat.old.id) }
        ensures grows { Grows seat.old.me.0 seat.new.me.0 }
        ensures sought { Sought self.now.plan seat.old.me.0 seat.new.me.0 result }
    {
        let mut taken = None;
        for job in from..self.job_count() {
            match self.try_job(seat, job) {
                Trial::Claimed => return Seek::Won(job),
                trial => taken = first(taken, job, &trial),
            }
        }
        match taken {
            Some(job) => Seek::Lost(job),
            None => Seek::AllPresent,
        }
    }

    /// Takes a job that is free and ready, or finds a cause for each job that is not known.
    fn search(&self, seat: &mut RawSeat, from: u32) -> Seek
        requires seat { IsIdleSeatOf self.now seat.old }
        requires known { (j : ℕ) → j < from → Contains seat.old.me.0.known j }
        ensures seat { IsSeatOf self.now seat.new × (seat.new.id ≡ seat.old.id) }
        ensures grows { Grows seat.old.me.0 seat.new.me.0 }
        ensures sought { Sought self.now.plan seat.old.me.0 seat.new.me.0 result }
    {
        match self.hunt(seat, from) {
            Some(job) => Seek::Won(job),
            None => self.seek(seat, from),
        }
    }

    /// The first job from a place on that is not found present, where those before it are known.
    pub(super) fn known_from(&self, seat: &mut RawSeat, from: u32) -> u32
        requires seat { IsIdleSeatOf self.now seat.old }
        requires known { (j : ℕ) → j < from → Contains seat.old.me.0.known j }
        ensures seat { IsIdleSeatOf self.now seat.new × (seat.new.id ≡ seat.old.id) }
        ensures grows { Grows seat.old.me.0 seat.new.me.0 }
        ensures known { (j : ℕ) → j < result → Contains seat.new.me.0.known j }
    {
        let mut below = from;
        for job in from..self.job_count() {
            if self.look(seat, job) != 2 {
                return below;
            }
            below = job + 1;
        }
        below
    }

    /// Whether each job is present, where those before a place are known. It stops at the first that is not.
    fn all_present(&self, seat: &mut RawSeat, from: u32) -> bool
        requires seat { IsIdleSeatOf self.now seat.old }
        requires known { (j : ℕ) → j < from → Contains seat.old.me.0.known j }
        ensures seat { IsIdleSeatOf self.now seat.new × (seat.new.id ≡ seat.old.id) }
        ensures grows { Grows seat.old.me.0 seat.new.me.0 }
        ensures all { result ≡ true → (k : ℕ) → k < job_count self.now.plan
            → Contains seat.new.me.0.known k }
        ensures one { result ≡ false → (k : ℕ) × (k < job_count self.now.plan)
            × (Contains seat.new.me.0.known k → ⊥) }
    {
        let count = self.job_count();
        for job in from..count {
            if self.look(seat, job) != 2 {
                return false;
            }
        }
        true
    }

    /// Runs a job that is free and ready, if there is one, where the jobs before a place are known.
    pub(super) fn step_from(
        &self,
        seat: &mut RawSeat,
        from: u32,
        desk: &mut Desk,
        kernel: &mut K,
    ) -> Step
        requires seat { IsIdleSeatOf self.now seat.old }
        requires known { (j : ℕ) → j < from → Contains seat.old.me.0.known j }
        requires desk { desk.old ≡ self.now.plan.width }
        requires kernel { (K.basis kernel.old ≡ self.now.basis)
            × (K.width kernel.old ≡ self.now.plan.width)
            × (K.space kernel.old ≡ self.now.plan.net.space) }
        requires told { K.told kernel.old None }
        ensures seat { IsIdleSeatOf self.now seat.new × (seat.new.id ≡ seat.old.id) }
        ensures keeps { Keeps seat.old.me.0 seat.new.me.0 }
        ensures told { Told self.now.plan seat.old.me.0 seat.new.me.0 result }
        ensures desk { desk.new ≡ desk.old }
        ensures kernel { (K.basis kernel.new ≡ K.basis kernel.old)
            × (K.width kernel.new ≡ K.width kernel.old)
            × (K.space kernel.new ≡ K.space kernel.old) }
        ensures last { IsLastRun (K.last kernel.new) result }
        ensures idle { K.told kernel.new None }
        ensures runs { K.runs kernel.new ≡ runs_after result (K.runs kernel.old) }
        ensures faults { K.faults kernel.old ≤ K.faults kernel.new }
        ensures refused { FaultsAfter result (K.faults kernel.old) (K.faults kernel.new) }
    {
        match self.search(seat, from) {
            Seek::Won(job) => {
                if self.run_job(
                    seat,
                    job,
                    desk.operands.as_mut_slice(),
                    desk.out.as_mut_slice(),
                    kernel,
                ) {
                    Step::Ran(job)
                } else {
                    Step::Refused(job)
                }
            }
            Seek::Lost(job) => {
                if self.all_present(seat, from) {
                    Step::Done
                } else {
                    Step::NotReady(job)
                }
            }
            Seek::AllPresent => Step::Done,
        }
    }
}

/// The first job found taken.
fn first(taken: Option<u32>, job: u32, trial: &Trial) -> Option<u32>
    ensures { result ≡ first_taken taken job trial.now }
{
    match (taken, trial) {
        (None, Trial::Taken) => Some(job),
        _ => taken,
    }
}
