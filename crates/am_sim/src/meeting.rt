use crate::simulate::simulate;
use am_calls::gate::Meeting;
use am_player::status::ExitStatus;
use am_text_output::memory::{MemSink, MemSource};
use std::alloc::Global;
use std::sync::Wait;
use std::test::*;
use std::thread::Threads;

/// A race of two threads, at two founders, each of which receives once.
const RACE: &[u8] = b"{\"race\":{\"founders\":[0,1],\"seed\":1,\"threads\":[\
{\"node\":0,\"calls\":[{\"do\":\"take\"}]},{\"node\":1,\"calls\":[{\"do\":\"take\"}]}]}}";

/// How often the race is run until its two nodes meet: a busy machine may let one thread wait for longer than the other looks.
const MOST_RACES: u32 = 20;

/// Whether the two nodes of a race meet; None where the race isn't done.
fn meets<R: Threads + Wait + Sync>(rt: &R, alloc: Global) -> Result<Option<bool>, Fail> {
    let gate = Meeting::new();
    let mut source = MemSource::new(RACE, &[], 4096);
    let mut sink = MemSink::new(alloc, &[], 4096, 65_536)?;
    match simulate(rt, alloc, &gate, &["race"], &mut source, &mut sink) {
        ExitStatus::Done => Ok(Some(gate.has_met())),
        _ => Ok(None),
    }
}

// Each of two calls at two nodes waits under its node's lock for the other. No clause says that the gate is passed, that the calls
// are made in two threads, or that each node has a lock of its own.
#[test]
fn two_nodes_at_once(rt: HostRuntime) -> Result<(), Fail> {
    let mut met = Some(false);
    for _ in 0..MOST_RACES {
        if met == Some(false) {
            met = meets(&rt, rt.alloc())?;
        }
    }
    assert!(rt; met == Some(true));
    Ok(())
}
