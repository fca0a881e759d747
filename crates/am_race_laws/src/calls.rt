ghost use Rattle.std.specs.Prelude.{◌≡◌, ◌++◌, ◌∷◌, []};
ghost use Rattle.am_group.specs.declared.event.Act.TheVariants as act;

use am_base::body::Body;
use am_group::event::Act;
use std::marker::Model;
use std::snapshot::Snapshot;

/// The last call, after those before it.
#[derive(Drop)]
#[cycle(calls)]
enum Link {
    Nothing,
    Call(Snapshot<Calls>, Snapshot<Act>),
    Send(Snapshot<Calls>, Snapshot<Body>),
}

/// The calls that a caller has made, which only clauses read: it takes no memory. Contracts see it as their list.
#[derive(Drop)]
#[cycle(calls)]
pub struct Calls {
    last: Link,
}

impl Model for Calls {
    ghost use Rattle.std.specs.Prelude.{List, length};
    ghost use Rattle.am_group.specs.declared.event.Act.{Act};

    ghost Value = { List Act };

    ghost use Rattle.am_race_laws.specs.Made.{calls_up_to};

    ghost view = { λ c. calls_up_to c.last };

    ghost size = { length };

    ghost use Rattle.std.proofs.Common.{arith, length-append};

    ghost size_decreases = { λ a h. Prim.grind (arith, length-append) };
}

impl Calls {
    /// No calls.
    pub fn new() -> Calls
        ensures { result ≡ [] }
    {
        Calls {
            last: Link::Nothing,
        }
    }

    /// Adds a call.
    pub fn push(&mut self, call: &Act)
        ensures { self.new ≡ self.old ++ call.now ∷ [] }
    {
        let last = Link::Call(Snapshot::of(self), Snapshot::of(call));
        *self = Calls { last };
    }

    /// Adds the sending of a body.
    pub fn push_send(&mut self, body: &Body)
        ensures { self.new ≡ self.old ++ act.Send body.now ∷ [] }
    {
        let last = Link::Send(Snapshot::of(self), Snapshot::of(body));
        *self = Calls { last };
    }
}
