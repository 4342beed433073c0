//! Worked examples of blocks.
mod blocks;
mod sums;
mod tables;
