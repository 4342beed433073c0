//! What the examples share: runs of the program over files in memory, files made of other files, files that are malformed,
//! parts of nets, and gates that watch the workers of a run.
#![tactic(auto)]

mod files;
mod gates;
mod malformed;
mod parts;
mod runs;

pub use files::{place_changed, place_longer, place_start};
pub use gates::{Meeting, Tally};
pub use malformed::{Change, first_wrong_change, first_wrong_file};
pub use parts::{name, number, term};
pub use runs::{
    first_wrong, has_length, holds, no_files, printed, run, run_through, was_printed, word_at,
};
