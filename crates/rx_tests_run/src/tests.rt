//! Runs that are done, and what refuses one.
mod malformed;
mod run;
mod server;
