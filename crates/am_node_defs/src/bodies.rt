ghost use Rattle.std.specs.Prelude.{◌≡◌, []};

use am_base::body::Body;
use am_base::name::Name;

/// A kept body, with the send that it belongs to.
#[derive(Drop)]
pub struct KeptBody {
    /// Whose send it is.
    pub from: Name,
    /// The send's request number.
    pub req: u32,
    /// The body.
    pub body: Body,
}

impl Default for KeptBody {
    ghost is_default = { λ kept. kept ≡ record { from = 0; req = 0; body = [] } };

    fn default() -> KeptBody {
        KeptBody {
            from: Name::default(),
            req: 0,
            body: Body::default(),
        }
    }
}
