//! Lookups as keys make them, and with noises at their bounds.
mod lookups;
mod noise;
