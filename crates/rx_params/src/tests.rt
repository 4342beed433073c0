//! Worked examples of sets: their sums and their text.
mod bounds;
mod text;
