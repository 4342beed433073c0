//! The jobs of a board's net, and copies of their cells.
ghost use Rattle.std.specs.Prelude.{get_or, ◌≡◌, ◌≢◌, ℕ, ◌+◌, ◌*◌, ◌<◌, ◌≤◌, ◌^◌, [], length, Contains, true, false};
ghost use Rattle.rx_net.specs.declared.term.Term.{Term};
ghost use Rattle.rx_net.specs.Cells.{operand_words};
ghost use Rattle.rx_uses.specs.Cells.{terms_at};
ghost use Rattle.rx_board.specs.Seats.{IsSeatOf, IsIdleSeatOf};
ghost use Rattle.rx_board.specs.Rule.{input_count, job_count, cell};
ghost use Rattle.rx_board.specs.Steps.{MayRead};
ghost use Rattle.rx_board.specs.Tells.{Grows, MetSince};

use super::Board;
use crate::kernel::Kernel;
use crate::view::RawSeat;
use rx_net::Job;

impl<'a, K: Kernel> Board<'a, K> {
    /// The number of input cells.
    pub(super) fn input_count(&self) -> u32
        ensures { result ≡ input_count self.now.plan.net }
    {
        self.first_cell
    }

    /// The number of jobs.
    pub(super) fn job_count(&self) -> u32
        ensures { result ≡ job_count self.now.plan }
    {
        self.net.jobs.as_slice().len() as u32
    }

    /// How many words a cell has.
    pub(super) fn width(&self) -> usize
        ensures { (result ≡ self.now.plan.width) × (0 < result) }
    {
        self.width
    }

    /// A job of the net. Its cell has the words that the kernel defines for the operands among the cells.
    pub(super) fn job(&self, job: u32) -> &Job
        requires { job < job_count self.now.plan }
        ensures is { terms_at self.now.plan.net.jobs job ≡ result.now.terms }
        ensures words { cell self.now.plan job ≡ K.words_of self.now.basis result.now
            (operand_words self.now.plan.cells result.now.terms) }
        ensures few { length result.now.terms ≤ 16 }
        ensures table { length result.now.table ≡ 4 ^ self.now.plan.net.space }
        ensures forward { (k : ℕ) (d : Term) → k < length result.now.terms
            → (get_or result.now.terms k d).cell < input_count self.now.plan.net + job }
    {
        &self.net.jobs.as_slice()[job as usize]
    }

    /// Copies an input cell.
    fn copy_input(&self, input: u32, out: &mut [u64])
        requires input { input < input_count self.now.plan.net }
        requires room { length out.old ≡ self.now.plan.width }
        ensures { out.new ≡ get_or self.now.plan.cells input [] }
    {
        let start = input as usize * self.width;
        out.copy_from_slice(&self.inputs[start..start + self.width]);
    }

    /// Copies the cell of a job that is known, or an operand of a ready job.
    fn copy_cell(&self, seat: &mut RawSeat, job: u32, out: &mut [u64])
        requires seat { IsSeatOf self.now seat.old }
        requires job { job < job_count self.now.plan }
        requires may { MayRead self.now.plan seat.old.me.0 job }
        requires room { length out.old ≡ self.now.plan.width }
        ensures seat { (seat.new.table_id ≡ seat.old.table_id) × (seat.new.id ≡ seat.old.id)
            × (seat.new.me ≡ seat.old.me) }
        ensures words { out.new ≡ cell self.now.plan job }
    {
        let _ = &self.table;
        for q in 0..out.len() {
            out[q] = self.read_word(seat, job, q);
        }
    }

    /// Copies an operand of a ready job.
    fn copy_operand(&self, seat: &mut RawSeat, job: u32, place: usize, out: &mut [u64])
        requires seat { IsSeatOf self.now seat.old }
        requires job { job < job_count self.now.plan }
        requires place { place < length (terms_at self.now.plan.net.jobs job) }
        requires ready { Contains seat.old.me.0.ready job }
        requires room { length out.old ≡ self.now.plan.width }
        ensures seat { (seat.new.table_id ≡ seat.old.table_id) × (seat.new.id ≡ seat.old.id)
            × (seat.new.me ≡ seat.old.me) }
        ensures words { (d : Term)
            → out.new ≡ get_or self.now.plan.cells
            (get_or (terms_at self.now.plan.net.jobs job) place d).cell [] }
    {
        let inputs = self.input_count();
        let named = self.job(job).terms.as_slice()[place].cell;
        if named < inputs {
            self.copy_input(named, out);
        } else {
            self.copy_cell(seat, named - inputs, out);
        }
    }

    /// The operands of a ready job, one after the other.
    pub(super) fn gather(&self, seat: &mut RawSeat, job: u32, operands: &mut [u64])
        requires seat { IsSeatOf self.now seat.old }
        requires job { job < job_count self.now.plan }
        requires ready { Contains seat.old.me.0.ready job }
        requires room { length operands.old ≡
            length (terms_at self.now.plan.net.jobs job) * self.now.plan.width }
        ensures seat { (seat.new.table_id ≡ seat.old.table_id) × (seat.new.id ≡ seat.old.id)
            × (seat.new.me ≡ seat.old.me) }
        ensures words { operands.new ≡
            operand_words self.now.plan.cells (terms_at self.now.plan.net.jobs job) }
    {
        let width = self.width();
        let count = self.job(job).terms.as_slice().len();
        for place in 0..count {
            let start = place * width;
            self.copy_operand(seat, job, place, &mut operands[start..start + width]);
        }
    }

    /// The words of a job's cell, where it is present.
    pub(super) fn read_cell(&self, seat: &mut RawSeat, job: u32, out: &mut [u64]) -> bool
        requires seat { IsIdleSeatOf self.now seat.old }
        requires job { job < job_count self.now.plan }
        requires room { length out.old ≡ self.now.plan.width }
        ensures seat { IsIdleSeatOf self.now seat.new × (seat.new.id ≡ seat.old.id) }
        ensures grows { Grows seat.old.me.0 seat.new.me.0 }
        ensures words { result ≡ true → out.new ≡ cell self.now.plan job }
        ensures missing { result ≡ false → (out.new ≡ out.old)
            × ((r : ℕ) × (r ≢ 2) × MetSince seat.old.me.0 seat.new.me.0 job r) }
        ensures known { Contains seat.old.me.0.known job → result ≡ true }
    {
        if self.look(seat, job) != 2 {
            return false;
        }
        self.copy_cell(seat, job, out);
        true
    }
}
