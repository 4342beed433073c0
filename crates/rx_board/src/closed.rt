//! The words of a board that is closed.
ghost use Rattle.std.specs.Prelude.{◌≡◌, ◌+◌, ◌*◌, ◌<◌, ◌≤◌, ◌==◌, length, true, false, [], IfSome};
ghost use Rattle.std.specs.Mem.Slots.{slots_items, slots_len, IsFull};
ghost use Rattle.rx_board.specs.Closing.{state_of, cell_of, present_below};
ghost use Rattle.rx_board.specs.Rule.{state_place, word_place};

use std::alloc::Global;
use std::marker::Model;

/// The words of a board that no caller shares any more.
pub struct Closed {
    /// The words of the board.
    table: atomic_table::Closed<(), Global>,
    /// How many jobs there are.
    jobs: u32,
    /// How many words a cell has.
    width: usize,
}

impl Model for Closed {
    ghost use Rattle.std.specs.Prelude.{◌≡◌, ◌+◌, ◌*◌, ◌≤◌};
    ghost use Rattle.std.specs.Mem.Slots.{slots_items, slots_len, IsFull};
    ghost use Rattle.rx_board.specs.Closing.{ClosedValue};

    ghost Value = { ClosedValue };

    ghost view = { λ c. record {
      width = c.width;
      jobs = c.jobs;
      words = slots_items c.table.words;
    } };

    ghost invariant = { λ c. (slots_len c.table.slots ≡ 0) × IsFull c.table.words
        × (slots_len c.table.words ≡ 1 + c.jobs * (c.width + 2))
        × (1 + c.jobs * (c.width + 2) ≤ 33554432) };
}

impl Closed {
    /// The words of a closed table of so many jobs, whose cells have so many words.
    pub(crate) fn of(table: atomic_table::Closed<(), Global>, jobs: u32, width: usize) -> Closed
        requires slots { (slots_len table.slots ≡ 0) × IsFull table.words }
        requires words { (slots_len table.words ≡ 1 + jobs * (width + 2))
            × (1 + jobs * (width + 2) ≤ 33554432) }
        ensures { (result.width ≡ width) × (result.jobs ≡ jobs)
            × (result.words ≡ slots_items table.words) }
    {
        Closed { table, jobs, width }
    }

    /// The state of a job: 0 free, 1 taken, 2 present.
    fn state(&self, job: u32) -> u64
        requires { job < self.now.jobs }
        ensures { result ≡ state_of self.now job }
    {
        self.table.word(1 + job as usize * (self.width + 2))
    }

    /// Whether a job is present.
    pub fn present(&self, job: u32) -> bool
        requires { job < self.now.jobs }
        ensures { result ≡ (state_of self.now job == 2) }
    {
        self.state(job) == 2
    }

    /// How many jobs are present.
    pub fn count(&self) -> u32
        ensures { result ≡ present_below self.now self.now.jobs }
    {
        let mut count = 0;
        for job in 0..self.jobs {
            if self.present(job) {
                count += 1;
            }
        }
        count
    }

    /// The words of a job's cell, where it is present, else false with `out` as it was.
    pub fn read(&self, job: u32, out: &mut [u64]) -> bool
        requires job { job < self.now.jobs }
        requires room { length out.old ≡ self.now.width }
        ensures present { result ≡ (state_of self.now job == 2) }
        ensures words { result ≡ true → out.new ≡ cell_of self.now job }
        ensures missing { result ≡ false → out.new ≡ out.old }
    {
        if !self.present(job) {
            return false;
        }
        let start = 1 + (job as usize * (self.width + 2) + 2);
        for q in 0..out.len() {
            out[q] = self.table.word(start + q);
        }
        true
    }
}

impl Drop for Closed {
    fn drop(self) {
        let Closed {
            table,
            jobs: _,
            width: _,
        } = self;
        table.free();
    }
}
