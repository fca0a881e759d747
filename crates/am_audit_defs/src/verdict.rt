ghost use Rattle.std.specs.Prelude.{◌≡◌};
ghost use Rattle.am_audit_defs.specs.Verdicts.{is_right};

use am_base::name::Name;

/// What an audit of a text comes to (docs/AUDIT.md, "Verdicts").
#[derive(Clone, Copy)]
pub enum Verdict {
    /// A log line's number isn't the one after its name's last.
    Gap {
        node: Name,
        number: u32,
    },
    /// Two names have different entries of one number.
    Differs {
        node_a: Name,
        node_b: Name,
        number: u32,
    },
    /// A send stands at two numbers of logs.
    Twice {
        from: Name,
        req: u32,
    },
    /// A log has what the group list hasn't.
    Astray {
        node: Name,
        number: u32,
    },
    /// A send doesn't stand where it was answered, or not only there.
    Lost {
        node: Name,
        req: u32,
    },
    /// A log begins before its name came in.
    Early {
        node: Name,
        number: u32,
    },
    /// An entry of the group list doesn't fit those before it.
    Misfit {
        number: u32,
    },
    /// The list and the logs are right, and there are no events.
    ListsAgree,
    /// A send's request isn't the one after its name's last.
    Skipped {
        node: Name,
        req: u32,
    },
    /// Nobody sent what stands in the group list.
    Unsent {
        from: Name,
        req: u32,
    },
    /// A take isn't what the log has.
    Unlogged {
        node: Name,
        number: u32,
    },
    /// A log has what wasn't taken.
    Untaken {
        node: Name,
        number: u32,
    },
    /// All is right.
    Agrees,
}

impl Verdict {
    /// Whether it is one that agrees: Agrees or ListsAgree.
    pub fn is_right(self) -> bool
        ensures { result ≡ is_right self }
    {
        match self {
            Verdict::Agrees | Verdict::ListsAgree => true,
            _ => false,
        }
    }
}

/// What an audit of a text tells: its verdict, and the event from which on its run is void, where its last line says one.
#[derive(Clone, Copy)]
pub struct Audit {
    pub verdict: Verdict,
    pub void_from: Option<u32>,
}
