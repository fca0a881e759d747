ghost use Rattle.std.specs.Prelude.{◌≡◌, ◌<◌};
ghost use Rattle.am_node_parts.specs.Prelude.{stamps_are_equal};

use am_base::name::Stamp;

/// Whether two stamps are one.
pub fn is_same(a: &Stamp, b: &Stamp) -> bool
    ensures value { result ≡ stamps_are_equal a.now b.now }
    ensures small { (a.now.by < 256) × (b.now.by < 256) }
{
    let (one, other) = (a.by.get(), b.by.get());
    a.round == b.round && one == other
}

/// The same stamp.
pub fn copy_of_stamp(stamp: &Stamp) -> Stamp
    ensures { result ≡ stamp.now }
{
    Stamp {
        round: stamp.round,
        by: stamp.by,
    }
}
