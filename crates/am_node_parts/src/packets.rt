ghost use Rattle.std.specs.Prelude.{◌≡◌};
ghost use Rattle.am_model.specs.Node.{set_of_one_name};

use am_base::name::Name;
use am_base::names::Names;

/// The packet of a kind that a node sends now: with its name, its promise, and these fields.
#[macro_export]
macro_rules! packet_from {
    ($parts:expr => $kind:ident { $($fields:tt)* }) => {
        Packet::$kind {
            sender: $parts.name(),
            stamp: $parts.promise(),
            $($fields)*
        }
    };
}

/// The set of one name.
pub fn only(name: Name) -> Names
    ensures { result ≡ set_of_one_name name }
{
    Names::empty().with(name)
}
