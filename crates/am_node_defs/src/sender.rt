ghost use Rattle.std.specs.Prelude.{◌≡◌};

use am_base::body::Body;

/// A send of this node: its request number, its body, and the number of its entry once that is known.
#[derive(Drop)]
pub struct OwnSend {
    /// Its request number, from 1.
    pub req: u32,
    /// Its body.
    pub body: Body,
    /// The number at which it stands in the list, once it is settled.
    pub number: Option<u32>,
}

impl Default for OwnSend {
    ghost use Rattle.std.specs.Prelude.{[], None};

    ghost is_default = { λ send. send ≡ record { req = 0; body = []; number = None } };

    fn default() -> OwnSend {
        OwnSend {
            req: 0,
            body: Body::default(),
            number: None,
        }
    }
}
