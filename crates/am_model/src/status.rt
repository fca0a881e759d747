/// How a node stands to its group.
#[derive(Clone, Copy, PartialEq, Eq, Debug)]
pub enum Status {
    /// It has no list and has not asked for one.
    Stranger,
    /// It has asked to join.
    Asking,
    /// It has a list.
    Member,
    /// It has left.
    Departed,
}

impl Status {
    ghost use Rattle.std.specs.Prelude.{◌≡◌};
    ghost use Rattle.am_model.specs.Node.{is_member, has_departed, has_log_by_status};

    /// Whether it has a list, and has not left.
    pub fn is_member(self) -> bool
        ensures { result ≡ is_member self }
    {
        self == Status::Member
    }

    /// Whether it has left.
    pub fn has_departed(self) -> bool
        ensures { result ≡ has_departed self }
    {
        self == Status::Departed
    }

    /// Whether it has or had a list.
    pub fn has_log(self) -> bool
        ensures { result ≡ has_log_by_status self }
    {
        self.is_member() || self.has_departed()
    }
}
