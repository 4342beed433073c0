//! A run of a held job.
ghost use Rattle.std.specs.Prelude.{◌≡◌, ◌*◌, ◌<◌, ◌≤◌, length, Contains, false, Some, None};
ghost use Rattle.rx_board.specs.Seats.{IsSeatOf};
ghost use Rattle.rx_board.specs.Rule.{job_count, cell, holding, uses_in};
ghost use Rattle.rx_board.specs.Steps.{published_at};
ghost use Rattle.rx_board.specs.Tells.{counted, HasFault, after_run};

use super::Board;
use crate::kernel::Kernel;
use crate::view::RawSeat;

impl<'a, K: Kernel> Board<'a, K> {
    /// Runs a job that the seat holds, and publishes it, or gives it back where the run was refused.
    pub(super) fn run_job(
        &self,
        seat: &mut RawSeat,
        job: u32,
        operands: &mut [u64],
        out: &mut [u64],
        kernel: &mut K,
    ) -> bool
        requires seat { IsSeatOf self.now seat.old }
        requires held { seat.old.me.0.held ≡ Some (holding job 0 0) }
        requires job { job < job_count self.now.plan }
        requires ready { Contains seat.old.me.0.ready job }
        requires operands { length operands.old ≡ 16 * self.now.plan.width }
        requires out { length out.old ≡ self.now.plan.width }
        requires kernel { (K.basis kernel.old ≡ self.now.basis)
            × (K.width kernel.old ≡ self.now.plan.width)
            × (K.space kernel.old ≡ self.now.plan.net.space) }
        requires told { K.told kernel.old None }
        ensures seat { (seat.new.table_id ≡ seat.old.table_id) × (seat.new.id ≡ seat.old.id) }
        ensures view { seat.new.me ≡ (after_run seat.old.me.0 job result, seat.old.me.1) }
        ensures faults { K.faults kernel.old ≤ K.faults kernel.new }
        ensures refused { result ≡ false → HasFault (K.faults kernel.old) (K.faults kernel.new) }
        ensures kernel { (K.basis kernel.new ≡ K.basis kernel.old)
            × (K.width kernel.new ≡ K.width kernel.old)
            × (K.space kernel.new ≡ K.space kernel.old) }
        ensures runs { K.runs kernel.new ≡ counted (K.runs kernel.old) }
        ensures told { K.told kernel.new None }
        ensures last { K.last kernel.new job }
    {
        let size = self.job(job).terms.as_slice().len() * self.width();
        self.gather(seat, job, &mut operands[..size]);
        kernel.claimed(job);
        match kernel.run(self.job(job), &operands[..size], out) {
            Ok(()) => {
                self.finish(seat, job, out);
                true
            }
            Err(_) => {
                self.give_back(seat, job);
                false
            }
        }
    }

    /// Stores the words of a held job, credits the uses of its cell and publishes it.
    fn finish(&self, seat: &mut RawSeat, job: u32, words: &[u64])
        requires seat { IsSeatOf self.now seat.old }
        requires held { seat.old.me.0.held ≡ Some (holding job 0 0) }
        requires job { job < job_count self.now.plan }
        requires room { length words.now ≡ self.now.plan.width }
        requires words { words.now ≡ cell self.now.plan job }
        ensures seat { (seat.new.table_id ≡ seat.old.table_id) × (seat.new.id ≡ seat.old.id) }
        ensures view { seat.new.me ≡ (published_at seat.old.me.0 job, seat.old.me.1) }
    {
        self.store_cell(seat, job, words);
        self.credit_all(seat, job);
        self.publish(seat, job);
    }

    /// Stores the words of a held job.
    fn store_cell(&self, seat: &mut RawSeat, job: u32, words: &[u64])
        requires seat { IsSeatOf self.now seat.old }
        requires held { seat.old.me.0.held ≡ Some (holding job 0 0) }
        requires job { job < job_count self.now.plan }
        requires room { length words.now ≡ self.now.plan.width }
        requires words { words.now ≡ cell self.now.plan job }
        ensures seat { (seat.new.table_id ≡ seat.old.table_id) × (seat.new.id ≡ seat.old.id) }
        ensures view { seat.new.me ≡ (
          record seat.old.me.0 {
            held = Some (holding job self.now.plan.width 0);
          },
          seat.old.me.1,
        ) }
    {
        for q in 0..words.len() {
            self.store_word(seat, job, q, words[q]);
        }
    }

    /// Credits all uses of a held job's cell.
    fn credit_all(&self, seat: &mut RawSeat, job: u32)
        requires seat { IsSeatOf self.now seat.old }
        requires held { seat.old.me.0.held ≡ Some (holding job self.now.plan.width 0) }
        requires job { job < job_count self.now.plan }
        requires words { length (cell self.now.plan job) ≡ self.now.plan.width }
        ensures seat { (seat.new.table_id ≡ seat.old.table_id) × (seat.new.id ≡ seat.old.id) }
        ensures view { seat.new.me ≡ (
          record seat.old.me.0 {
            held = Some (holding job self.now.plan.width (length (uses_in self.now.plan job)));
          },
          seat.old.me.1,
        ) }
    {
        let _ = &self.table;
        let mut done = 0;
        let mut next = self.first_use(job);
        while let Some(node) = next {
            self.credit(seat, job, done, node);
            next = self.next_use(job, done, node);
            done += 1;
        }
    }
}
