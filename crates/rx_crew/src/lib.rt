//! The evaluation of nets under a server key: each job is the bootstrap of a weighted sum of earlier cells. Source:
//! `docs/FORMATS.md`, Nets; what is kept `docs/NOISE.md`.
#![tactic(auto)]

mod blocks;
mod board;
mod gate;
mod jobs;
mod kernel;
mod laws;
mod mixing;
mod run;

pub use board::{MOST_BOARD_WORDS, MOST_WORKERS, board_words};
pub use gate::{Gate, OpenGate};
pub use kernel::FheKernel;
pub use laws::{evaluation_laws, keeping_laws};
pub use run::{RunReport, run_net};
