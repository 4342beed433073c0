//! What each command makes of the files that it reads, which are those that `Command::reads` names, in its order. It
//! stops at the first thing that refuses; a binary file is malformed for all that `malformed_binary` reports. No
//! command touches the store or the sink.
mod check;
mod client;
mod compile;
mod decrypt;
mod differences;
mod encrypt;
mod evaluation;
mod expand;
mod fold;
mod keygen;
mod limits;
mod make;
mod migrate;
mod plain;
mod run;
mod run_checks;
mod run_inputs;
mod shared;
mod trip;
mod trip_parts;

pub use check::check_set;
pub use client::make_client;
pub use compile::compile_circuit;
pub use decrypt::decrypt_numbers;
pub use encrypt::encrypt_numbers;
pub use expand::expand_file;
pub use fold::fold_net;
pub use keygen::make_server;
pub use make::make_files;
pub use migrate::migrate_file;
pub use plain::evaluate_plain;
pub use run::run_net_files;
pub use trip::run_trip;
