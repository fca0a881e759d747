use am_base::name::Name;
use am_group::event::By;
use std::sync::atomic::{AtomicBool, Ordering};

/// What is done under a node's lock, between a look and the act that it finds, with the node that acts and whose act it is. A
/// test waits there until another thread is there too. No clause says when it is done or with what: a test counts that it is
/// done once for each record, with that record's node and caller.
pub trait TestHook {
    /// Does what it will: no clause says what, or what it is given.
    fn between(&self, node: Name, by: &By);
}

/// Does nothing.
pub struct NoHook;

impl TestHook for NoHook {
    fn between(&self, _node: Name, _by: &By) {}
}

/// How often a node at a meeting looks for the other.
const MOST_LOOKS: u32 = 100_000_000;

/// For tests: each of two nodes, one at an even place and one at an odd place, waits until the other is there too, or has looked
/// for it 100,000,000 times. What it holds is for whoever looks then: no clause speaks of it.
#[derive(Drop)]
pub struct Meeting {
    here: [AtomicBool; 2],
    met: [AtomicBool; 2],
}

impl Meeting {
    /// A new meeting. That nobody has come to it, no clause says.
    pub fn new() -> Meeting {
        Meeting {
            here: [AtomicBool::new(false), AtomicBool::new(false)],
            met: [AtomicBool::new(false), AtomicBool::new(false)],
        }
    }

    /// What the two have noted: that each saw the other, or not. No clause ties it to what they did.
    pub fn has_met(&self) -> bool {
        self.met[0].load(Ordering::SeqCst) && self.met[1].load(Ordering::SeqCst)
    }
}

impl TestHook for Meeting {
    fn between(&self, node: Name, _by: &By) {
        let mine = usize::from(node.place() % 2);
        self.here[mine].store(true, Ordering::SeqCst);
        for _ in 0..MOST_LOOKS {
            if self.here[1 - mine].load(Ordering::SeqCst) {
                self.met[mine].store(true, Ordering::SeqCst);
                return;
            }
        }
    }
}
