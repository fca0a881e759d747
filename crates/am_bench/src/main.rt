//! The timer of the codec, the journal, the history and the fronts.
//!
//!     am_bench codec COUNT    packets that are read and written, and letters that are looked up, so many times
//!     am_bench parts COUNT    a node's history and fronts, gone over so many times
//!     am_bench                a little of both: what came of it
#![tactic(auto)]

mod ring;
mod work;

use std::{env, io};
use work::{codec, parts};

/// How often work is to be done, by the second word, or 0.
fn count_in(words: &[String]) -> u32 {
    match words.get(2) {
        Some(word) => word.as_str().parse::<u32>().unwrap_or(0),
        None => 0,
    }
}

fn main(rt: HostRuntime) -> io::Result<()> {
    let alloc = rt.alloc();
    let words: Vec<String> = env::args(&rt)?.collect(alloc)?;
    let count = count_in(words.as_slice());
    match words.get(1).map(String::as_str) {
        Some("codec") => work::time(&rt, &codec(), count, true),
        Some("parts") => work::time(&rt, &parts(), count, true),
        _ => {
            work::time(&rt, &codec(), 2, false)?;
            work::time(&rt, &parts(), 2, false)
        }
    }
}
