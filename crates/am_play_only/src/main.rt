//! The program that only plays: it runs the script of standard input, and prints the text of its run. It ignores its words.
#![tactic(auto)]

use am_io::standard::{StdSink, StdSource};
use am_player::play::play;
use am_player::shows::PlayText;
use am_player::telling::tell;
use std::process::ExitCode;

/// Plays the script of standard input, writes the text of its run to standard output, tells of the status on standard error, and
/// ends with that one's number.
fn main(rt: HostRuntime) -> ExitCode {
    let mut source = StdSource::new(rt.stdin());
    let mut sink = StdSink::new(rt.stdout());
    let status = play(rt.alloc(), &PlayText, &mut source, &mut sink);
    let _ = tell(&rt, status);
    ExitCode::from(status.number())
}
