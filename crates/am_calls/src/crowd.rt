use am_base::NoMemory;
use std::sync::atomic::{AtomicU64, Ordering};
use std::sync::{Mutex, Wait};
use std::thread;
use std::thread::Threads;

/// How often a caller looks whether the others have come as far.
const MOST_LOOKS: u32 = 100_000;

/// There are fewer callers than this.
const ROOM: u64 = 32;

/// How the callers of a race wait for each other. They begin together, and one whose node has nothing to do rests until somebody
/// has done something: else it would spend its turns while the others wait for a processor. It is in rounds, each of which ends
/// with the next thing that is done, or where all rest. Then it is calm, and the callers are due to go on in turn, one at a calm.
/// No clause speaks of it, since none speaks of when a caller does what it does. Nobody waits for good: who has looked for the
/// others 100,000 times goes on, and nobody rests while somebody hasn't begun.
#[derive(Drop)]
pub struct Crowd {
    /// How many callers there are.
    all: u64,
    /// How many of them haven't ended.
    callers: AtomicU64,
    /// How many have begun.
    begun: AtomicU64,
    /// The round, times `ROOM`, and how many rest in it.
    resting: AtomicU64,
    /// How often it was calm.
    calms: AtomicU64,
}

impl Crowd {
    /// A crowd of so many callers, of whom nobody has begun.
    pub fn new(callers: u64) -> Crowd {
        Crowd {
            all: callers,
            callers: AtomicU64::new(callers),
            begun: AtomicU64::new(0),
            resting: AtomicU64::new(0),
            calms: AtomicU64::new(0),
        }
    }

    /// A caller begins, and waits for the others to begin.
    pub fn begin(&self) {
        self.begun.fetch_add(1, Ordering::SeqCst);
        for _ in 0..MOST_LOOKS {
            if self.callers.load(Ordering::SeqCst) <= self.begun.load(Ordering::SeqCst) {
                return;
            }
            thread::yield_now();
        }
    }

    /// A caller has ended.
    pub fn end(&self) {
        self.callers.fetch_sub(1, Ordering::SeqCst);
    }

    /// The round.
    pub fn round(&self) -> u64 {
        self.resting.load(Ordering::SeqCst) / ROOM
    }

    /// How often a caller was due.
    pub fn due(&self, caller: u32) -> u64 {
        let calms = self.calms.load(Ordering::SeqCst);
        let behind = calms.wrapping_add(self.all).wrapping_sub(u64::from(caller));
        behind.checked_div(self.all).unwrap_or(calms)
    }

    /// Ends the round of this word, if that is still it; whether it did.
    fn ends(&self, resting: u64) -> bool {
        let next = (resting / ROOM).wrapping_add(1).wrapping_mul(ROOM);
        self.resting
            .compare_exchange(resting, next, Ordering::SeqCst, Ordering::SeqCst)
            .is_ok()
    }

    /// Something was done, so the round ends.
    pub fn stir(&self) {
        for _ in 0..MOST_LOOKS {
            if self.ends(self.resting.load(Ordering::SeqCst)) {
                return;
            }
        }
    }

    /// One more rests in a round, if that is still it.
    fn lie_down(&self, round: u64) {
        for _ in 0..MOST_LOOKS {
            let old = self.resting.load(Ordering::SeqCst);
            if old / ROOM != round {
                return;
            }
            let new = old.wrapping_add(1);
            if self
                .resting
                .compare_exchange(old, new, Ordering::SeqCst, Ordering::SeqCst)
                .is_ok()
            {
                return;
            }
        }
    }

    /// Rests until a round is over; whether it is.
    pub fn rest(&self, round: u64) -> bool {
        if self.begun.load(Ordering::SeqCst) < self.all {
            return false;
        }
        self.lie_down(round);
        for _ in 0..MOST_LOOKS {
            let now = self.resting.load(Ordering::SeqCst);
            if now / ROOM != round {
                return true;
            }
            if self.callers.load(Ordering::SeqCst) <= now % ROOM && self.ends(now) {
                self.calms.fetch_add(1, Ordering::SeqCst);
                return true;
            }
            thread::yield_now();
        }
        false
    }
}

/// Sees that so many callers can each have a thread, all at once, where this thread is the first one's: it makes the others, which
/// wait for the last of them and end. No clause says so. A caller without a thread would make its calls once another has ended.
pub fn gather<R: Threads + Wait + Sync>(rt: &R, callers: usize) -> Result<(), NoMemory> {
    let gate = Mutex::new(());
    let shared = &gate;
    thread::scope(thread::scope_env(), rt, |scope| {
        let _closed = shared.lock(rt);
        for _ in 1..callers {
            if scope.spawn(move || drop(shared.lock(rt))).is_err() {
                return Err(NoMemory);
            }
        }
        Ok(())
    })
}
