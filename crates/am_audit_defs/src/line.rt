use am_base::name::Name;

/// Which lines of a text may come next.
#[derive(Clone, Copy)]
pub enum TextStage {
    /// Events, or the group list.
    Events,
    /// The group list, logs, or the last line.
    List,
    /// Logs, or the last line.
    Logs,
    /// None.
    End,
}

/// A send that was answered as sent: whose it is, its request, and the number at which it stands.
#[derive(Clone, Copy)]
pub struct AnsweredSend {
    pub name: Name,
    pub req: u32,
    pub number: u32,
}
