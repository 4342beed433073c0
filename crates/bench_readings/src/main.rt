//! Makes the seeded server file of a set and reads it as often as asked, for `bench/readings` to time:
//! `bench_readings SET COUNT`. Prints the exclusive or of the last words of the keys that were read.
#![tactic(auto)]

ghost use Rattle.rx_params.specs.Acceptance.{Accepts};

use rx_codec::CodecFault;
use rx_params::{Params, named};
use rx_seeded::{decode_server, encode_fresh_server};
use std::alloc::Global;
use std::{env, io};

fn main(rt: HostRuntime) -> io::Result<()> {
    let mut words = env::args(&rt)?.skip(1);
    let Some(word) = words.next() else {
        return println!(rt; "bench_readings SET COUNT");
    };
    let Some(set) = named(word.as_str()) else {
        return println!(rt; "no set has that name");
    };
    let count = match words.next() {
        Some(word) => word.parse::<u32>().unwrap_or(0),
        None => 0,
    };
    match read_often(rt.alloc(), &set, count) {
        Ok(last) => println!(rt; "{last}"),
        Err(_) => println!(rt; "out of memory"),
    }
}

/// The exclusive or of the last bootstrapping words of a key, read that many times.
fn read_often(alloc: Global, p: &Params, count: u32) -> Result<u64, CodecFault>
    requires { Accepts p.now }
{
    let file = encode_fresh_server(alloc, p, &[0; 32], &[1; 32])?;
    let mut all = 0;
    for _ in 0..count {
        let key = decode_server(alloc, &file)?;
        all ^= key.boot.words().last().copied().unwrap_or(0);
    }
    Ok(all)
}
