/// What a body did to a directory (docs/DIRECTORY.md, "Commands").
#[derive(Clone, Copy, PartialEq, Eq, Debug)]
pub enum Applied {
    /// A Put set a key that wasn't there.
    Put,
    /// A Put set a key that was there.
    Replaced,
    /// A Delete took a key out.
    Deleted,
    /// The key of a Delete wasn't there.
    Absent,
    /// A Claim set a key: it wasn't there.
    Claimed,
    /// The key of a Claim was there, and stays as it was.
    Kept,
    /// The key would have been one too many. Nothing changed.
    Full,
    /// The body is no command. Nothing changed.
    NoCommand,
}
