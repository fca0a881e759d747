//! The program of all words: it plays scripts, races threads, generates runs, audits texts, prints messages and directories, and is one
//! node that answers lines.
#![tactic(auto)]

pub mod alone;
mod auditing;
mod generating;
mod parting;
mod playing;
mod racing;
pub mod simulate;
mod speaking;

use am_calls::gate::NoHook;
use am_io::standard::{StdSink, StdSource};
use am_player::status::ExitStatus;
use am_player::telling::tell;
use simulate::simulate;
use std::alloc::Global;
use std::io::ErrorKind;
use std::process::ExitCode;
use std::sync::Wait;
use std::thread::Threads;
use std::{env, io};

/// The process's words; else how the call ends: where one isn't UTF-8 they have no form, and there may be no memory for them.
fn words_of(rt: &HostRuntime) -> Result<Vec<String>, ExitStatus> {
    match env::args(rt) {
        Ok(args) => match args.collect(rt.alloc()) {
            Ok(words) => Ok(words),
            Err(_) => Err(ExitStatus::NoMemory),
        },
        Err(error) => match error.kind() {
            ErrorKind::InvalidData => Err(ExitStatus::Usage),
            _ => Err(ExitStatus::NoMemory),
        },
    }
}

/// Does what the words after the program's name ask for.
fn answer<R: Threads + Wait + Sync>(
    rt: &R,
    alloc: Global,
    input: io::Stdin,
    output: io::Stdout,
    owned: &[String],
) -> ExitStatus {
    let mut words = Vec::new(alloc);
    for word in owned.iter().skip(1) {
        if words.push(word.as_str()).is_err() {
            return ExitStatus::NoMemory;
        }
    }
    let mut source = StdSource::new(input);
    let mut sink = StdSink::new(output);
    simulate(rt, alloc, &NoHook, words.as_slice(), &mut source, &mut sink)
}

/// Does what the process's words ask for, from standard input to standard output.
fn main(rt: HostRuntime) -> ExitCode {
    let status = match words_of(&rt) {
        Ok(owned) => answer(&rt, rt.alloc(), rt.stdin(), rt.stdout(), owned.as_slice()),
        Err(status) => status,
    };
    let _ = tell(&rt, status);
    ExitCode::from(status.number())
}

#[cfg(test)]
mod meeting;
