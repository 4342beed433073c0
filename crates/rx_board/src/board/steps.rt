//! The steps on single words, and where the words lie.
ghost use Rattle.std.specs.Prelude.{◌≡◌, ◌≢◌, ◌+◌, ◌<◌, ◌≤◌, length, Contains, None, Some, slice_index};
ghost use Rattle.rx_uses.specs.Uses.{node_at};
ghost use Rattle.rx_board.specs.Seats.{IsSeatOf, IsIdleSeatOf};
ghost use Rattle.rx_board.specs.Rule.{job_count, cell, holding, state_place, count_place, word_place, uses_in, owner_in};
ghost use Rattle.rx_board.specs.Steps.{claimed_at, published_at, given, both_of, IsReady, MayRead};
ghost use Rattle.rx_board.specs.Tells.{Grows, MetSince, EndsWith};

use super::Board;
use crate::kernel::Kernel;
use crate::plays::{Claim, Credit, Cut, GiveBack, Glue, Look, LookCount, Publish, ReadWord, Store};
use crate::view::RawSeat;

/// The state of a job that no seat holds and that is not present.
const FREE: u64 = 0;

/// The state of a job that a seat holds.
const TAKEN: u64 = 1;

/// The state of a job that was published.
const PRESENT: u64 = 2;

impl<'a, K: Kernel> Board<'a, K> {
    /// The place of a job's state word.
    fn state_word(&self, job: u32) -> usize
        requires { job < job_count self.now.plan }
        ensures place { result ≡ state_place self.now.plan.width job }
        ensures there { result < self.now.id.words }
    {
        1 + job as usize * (self.width + 2)
    }

    /// The place of a job's count word.
    fn count_word(&self, job: u32) -> usize
        requires { job < job_count self.now.plan }
        ensures place { result ≡ count_place self.now.plan.width job }
        ensures there { result < self.now.id.words }
    {
        1 + (job as usize * (self.width + 2) + 1)
    }

    /// The place of word q of a job's cell.
    fn cell_word(&self, job: u32, q: usize) -> usize
        requires job { job < job_count self.now.plan }
        requires q { q < self.now.plan.width }
        ensures place { result ≡ word_place self.now.plan.width job q }
        ensures there { result < self.now.id.words }
    {
        1 + (job as usize * (self.width + 2) + (2 + q))
    }

    /// Loads the state of a job.
    pub(super) fn look(&self, seat: &mut RawSeat, job: u32) -> u64
        requires seat { IsIdleSeatOf self.now seat.old }
        requires job { job < job_count self.now.plan }
        ensures seat { IsIdleSeatOf self.now seat.new × (seat.new.id ≡ seat.old.id) }
        ensures grows { Grows seat.old.me.0 seat.new.me.0 }
        ensures met { MetSince seat.old.me.0 seat.new.me.0 job result }
        ensures state { result ≤ 2 }
        ensures known { Contains seat.old.me.0.known job → result ≡ 2 }
        ensures present { result ≡ 2 → Contains seat.new.me.0.known job }
        ensures absent { result ≢ 2 → Contains seat.new.me.0.known job → ⊥ }
    {
        let place = self.state_word(job);
        self.table.shared.load::<Look>(seat, place)
    }

    /// Loads the count of a job.
    pub(super) fn look_count(&self, seat: &mut RawSeat, job: u32) -> u64
        requires seat { IsIdleSeatOf self.now seat.old }
        requires job { job < job_count self.now.plan }
        ensures seat { IsIdleSeatOf self.now seat.new × (seat.new.id ≡ seat.old.id) }
        ensures grows { Grows seat.old.me.0 seat.new.me.0 }
        ensures ready { result ≡ 0 → Contains seat.new.me.0.ready job }
        ensures zero { IsReady self.now.plan seat.old.me.0 job → result ≡ 0 }
    {
        let place = self.count_word(job);
        self.table.shared.load::<LookCount>(seat, place)
    }

    /// Loads a word of the cell of a job that is known, or of an operand of a ready job.
    pub(super) fn read_word(&self, seat: &mut RawSeat, job: u32, q: usize) -> u64
        requires seat { IsSeatOf self.now seat.old }
        requires job { job < job_count self.now.plan }
        requires may { MayRead self.now.plan seat.old.me.0 job }
        requires q { q < self.now.plan.width }
        ensures seat { (seat.new.table_id ≡ seat.old.table_id) × (seat.new.id ≡ seat.old.id) }
        ensures view { seat.new.me ≡ seat.old.me }
        ensures word { (result ≡ slice_index (cell self.now.plan job) q)
            × (length (cell self.now.plan job) ≡ self.now.plan.width) }
    {
        let place = self.cell_word(job, q);
        self.table.shared.load::<ReadWord>(seat, place)
    }

    /// Takes a ready job, where it is free, and gives the state in which it was found.
    pub(super) fn claim(&self, seat: &mut RawSeat, job: u32) -> u64
        requires seat { IsIdleSeatOf self.now seat.old }
        requires job { job < job_count self.now.plan }
        requires ready { Contains seat.old.me.0.ready job }
        ensures seat { IsSeatOf self.now seat.new × (seat.new.id ≡ seat.old.id) }
        ensures grows { Grows seat.old.me.0 seat.new.me.0 }
        ensures met { MetSince seat.old.me.0 seat.new.me.0 job result }
        ensures ends { EndsWith seat.old.me.0 seat.new.me.0 job result }
        ensures state { result ≤ 2 }
        ensures known { Contains seat.old.me.0.known job → result ≡ 2 }
        ensures ran { Contains seat.old.me.0.ran job → result ≡ 2 }
        ensures present { result ≡ 2 → Contains seat.new.me.0.known job }
        ensures absent { result ≢ 2 → Contains seat.new.me.0.known job → ⊥ }
        ensures held { result ≡ 0 → seat.new.me.0.held ≡ Some (holding job 0 0) }
        ensures missed { result ≢ 0 → seat.new.me.0.held ≡ None }
    {
        self.exchange(seat, job, FREE, TAKEN)
    }

    /// Exchanges the state of a job where it is the first of these, in one step that no other step comes between, and
    /// gives the state that was found. Of all exchanges only that of free for taken claims a job.
    fn exchange(&self, seat: &mut RawSeat, job: u32, from: u64, to: u64) -> u64
        requires seat { IsIdleSeatOf self.now seat.old }
        requires job { job < job_count self.now.plan }
        requires ready { Contains seat.old.me.0.ready job }
        requires from { from ≡ 0 }
        requires to { to ≡ 1 }
        ensures seat { (seat.new.table_id ≡ seat.old.table_id) × (seat.new.id ≡ seat.old.id) }
        ensures view { seat.new.me ≡ (claimed_at seat.old.me.0 job result, seat.old.me.1) }
        ensures state { result ≤ 2 }
        ensures known { Contains seat.old.me.0.known job → result ≡ 2 }
        ensures ran { Contains seat.old.me.0.ran job → result ≡ 2 }
    {
        let place = self.state_word(job);
        self.table
            .shared
            .compare_exchange::<Claim>(seat, place, from, to)
    }

    /// Stores the next word of a held job.
    pub(super) fn store_word(&self, seat: &mut RawSeat, job: u32, q: usize, word: u64)
        requires seat { IsSeatOf self.now seat.old }
        requires held { seat.old.me.0.held ≡ Some (holding job q 0) }
        requires job { job < job_count self.now.plan }
        requires q { q < self.now.plan.width }
        requires word { word ≡ slice_index (cell self.now.plan job) q }
        ensures seat { (seat.new.table_id ≡ seat.old.table_id) × (seat.new.id ≡ seat.old.id) }
        ensures view { seat.new.me ≡
            (record seat.old.me.0 { held = Some (holding job (q + 1) 0) }, seat.old.me.1) }
    {
        let place = self.cell_word(job, q);
        self.table.shared.store::<Store>(seat, place, word);
    }

    /// The first use of a job's cell.
    pub(super) fn first_use(&self, job: u32) -> Option<u32>
        requires { job < job_count self.now.plan }
        ensures { result ≡ node_at (uses_in self.now.plan job) 0 }
    {
        self.uses.first(self.first_cell + job)
    }

    /// The use of a job's cell after this one, which has `done` uses before it.
    pub(super) fn next_use(&self, job: u32, done: u32, node: u32) -> Option<u32>
        requires job { job < job_count self.now.plan }
        requires node { node_at (uses_in self.now.plan job) done ≡ Some node }
        ensures { result ≡ node_at (uses_in self.now.plan job) (done + 1) }
    {
        let _ = &self.net;
        let _ = (job, done);
        self.uses.next(node)
    }

    /// The job whose use of a job's cell this is.
    fn owner(&self, job: u32, done: u32, node: u32) -> u32
        requires job { job < job_count self.now.plan }
        requires node { node_at (uses_in self.now.plan job) done ≡ Some node }
        ensures owner { result ≡
            owner_in self.now.plan (slice_index (uses_in self.now.plan job) done) }
        ensures within { result < job_count self.now.plan }
        ensures more { done < length (uses_in self.now.plan job) }
    {
        let _ = &self.net;
        let _ = (job, done);
        self.uses.owner(node)
    }

    /// Credits the next use of the held job's cell: the count of the job whose it is falls by one.
    pub(super) fn credit(&self, seat: &mut RawSeat, job: u32, done: u32, node: u32)
        requires seat { IsSeatOf self.now seat.old }
        requires held { seat.old.me.0.held ≡ Some (holding job self.now.plan.width done) }
        requires job { job < job_count self.now.plan }
        requires node { node_at (uses_in self.now.plan job) done ≡ Some node }
        requires words { length (cell self.now.plan job) ≡ self.now.plan.width }
        ensures seat { (seat.new.table_id ≡ seat.old.table_id) × (seat.new.id ≡ seat.old.id) }
        ensures view { seat.new.me ≡ (
          record seat.old.me.0 {
            held = Some (holding job self.now.plan.width (done + 1));
          },
          seat.old.me.1,
        ) }
    {
        let place = self.count_word(self.owner(job, done, node));
        self.table.shared.fetch_sub::<Credit>(seat, place, 1);
    }

    /// Gives back a held job of which no word was stored.
    pub(super) fn give_back(&self, seat: &mut RawSeat, job: u32)
        requires seat { IsSeatOf self.now seat.old }
        requires held { seat.old.me.0.held ≡ Some (holding job 0 0) }
        requires job { job < job_count self.now.plan }
        ensures seat { (seat.new.table_id ≡ seat.old.table_id) × (seat.new.id ≡ seat.old.id) }
        ensures view { seat.new.me ≡ (record seat.old.me.0 { held = None }, seat.old.me.1) }
    {
        let place = self.state_word(job);
        self.table.shared.store::<GiveBack>(seat, place, FREE);
    }

    /// Publishes a held job all of whose words are stored and all of whose uses are credited.
    pub(super) fn publish(&self, seat: &mut RawSeat, job: u32)
        requires seat { IsSeatOf self.now seat.old }
        requires held { seat.old.me.0.held ≡
            Some (holding job self.now.plan.width (length (uses_in self.now.plan job))) }
        requires job { job < job_count self.now.plan }
        requires words { length (cell self.now.plan job) ≡ self.now.plan.width }
        ensures seat { (seat.new.table_id ≡ seat.old.table_id) × (seat.new.id ≡ seat.old.id) }
        ensures view { seat.new.me ≡ (published_at seat.old.me.0 job, seat.old.me.1) }
    {
        let place = self.state_word(job);
        self.table.shared.store::<Publish>(seat, place, PRESENT);
    }

    /// One more seat, which knows what this one knows.
    pub(super) fn split_raw(&self, seat: &mut RawSeat) -> RawSeat
        requires seat { IsIdleSeatOf self.now seat.old }
        ensures kept { (seat.new.table_id ≡ seat.old.table_id) × (seat.new.id ≡ seat.old.id)
            × (seat.new.me ≡ seat.old.me) }
        ensures made { IsIdleSeatOf self.now result × (result.me.0 ≡ given seat.old.me.0) }
    {
        self.table.shared.split_seat::<Cut>(seat)
    }

    /// Takes another seat into this one.
    pub(super) fn join_raw(&self, seat: &mut RawSeat, other: RawSeat)
        requires seat { IsIdleSeatOf self.now seat.old }
        requires other { IsIdleSeatOf self.now other }
        ensures kept { (seat.new.table_id ≡ seat.old.table_id) × (seat.new.id ≡ seat.old.id)
            × (seat.new.me ≡ (both_of seat.old.me.0 other.me.0, seat.old.me.1)) }
    {
        self.table.shared.join_seat::<Glue>(seat, other);
    }
}
