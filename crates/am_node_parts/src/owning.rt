ghost use Rattle.std.specs.Prelude.{◌≡◌, IfSome, is_some, option_map};
ghost use Rattle.am_node_parts.specs.Prelude.{NumberIsInRange, waiting_send_of, node_of};
ghost use Rattle.am_node_defs.specs.Sends.{request_and_body_of_waiting_send};

use crate::parts::Parts;
use am_base::body::Body;

/// A send of the node's own: its request and its body.
#[derive(Drop)]
pub struct WaitingSend {
    /// Its request.
    pub req: u32,
    /// Its body.
    pub body: Body,
}

impl Parts {
    /// Whether a send waits.
    pub fn has_waiting(&self) -> bool
        ensures { result ≡ is_some (waiting_send_of (node_of self.now)) }
    {
        self.sender.waiting().is_some()
    }

    /// The send that waits; None exactly where there is none.
    pub fn next_send(&self) -> Option<WaitingSend>
        ensures value { option_map (λ send. (send.req, send.body)) result
            ≡ request_and_body_of_waiting_send self.now.sender }
        ensures within { IfSome result (λ send. NumberIsInRange send.req) }
    {
        let (req, body) = self.sender.waiting()?;
        Some(WaitingSend {
            req,
            body: body.copy(),
        })
    }
}
