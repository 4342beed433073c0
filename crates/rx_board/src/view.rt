//! What a seat knows of its board. No value of `View` or `Plan` is made: contracts alone speak of them.
use rx_net::Net;
use std::collections::LinkedList;

/// What a board is about.
pub struct Plan {
    /// The net whose jobs are run.
    pub net: Net,
    /// How many words a cell has.
    pub width: u64,
    /// The words of all cells, those of the inputs first.
    pub cells: LinkedList<LinkedList<u64>>,
}

/// A job that a seat holds.
pub struct Held {
    /// Its number.
    pub job: u32,
    /// How many words of its cell are stored.
    pub filled: u64,
    /// How many uses of its cell are credited.
    pub credited: u64,
}

/// A job, and the state in which it was found.
pub struct Found {
    /// Its number.
    pub job: u32,
    /// 0 free, 1 taken, 2 present.
    pub state: u64,
}

/// What a seat knows.
pub struct View {
    /// That of its board; none in a seat that was joined to another.
    pub plan: Option<Plan>,
    /// Jobs that were found present.
    pub known: LinkedList<u32>,
    /// Jobs whose count was found 0.
    pub ready: LinkedList<u32>,
    /// The job that is held, if any is.
    pub held: Option<Held>,
    /// The jobs that were run and published by this seat, and by those joined to it.
    pub ran: LinkedList<u32>,
    /// Each state that was found, in order.
    pub met: LinkedList<Found>,
}

/// A seat of the table, which may hold a job.
pub(crate) type RawSeat = atomic_table::Seat<(), View>;

/// What a call of `step` did.
#[derive(Debug, Drop)]
pub enum Step {
    /// It ran this job and published its cell.
    Ran(u32),
    /// It found this job taken by another seat, and none that is free and ready.
    NotReady(u32),
    /// Each job is present.
    Done,
    /// The kernel refused to run this job, and it was given back.
    Refused(u32),
}

/// What became of one job.
#[derive(Drop)]
pub enum Trial {
    /// It is present.
    Present,
    /// Another seat holds it.
    Taken,
    /// An operand job of it is not present.
    Waiting,
    /// It is held now.
    Claimed,
}

/// What a search for a free and ready job found.
#[derive(Drop)]
pub enum Seek {
    /// This job is held now.
    Won(u32),
    /// None; this one is the first that was found taken.
    Lost(u32),
    /// Each job is present.
    AllPresent,
}
