ghost use Rattle.am_service_defs.specs.{Parts.PartsAreRead, Messages.ComputedMessagesEnd, Assembling.MessagesAssemble};
ghost use Rattle.am_service_defs.specs.{Commands.CommandsAreTheirBytes, Replicas.ReplicasShow, Snapshots.SnapshotsAreTheirBytes, Snapshots.ContentsStayWithin};

/// What is read as a part is a part of some message, and each part of a message is read as what it is.
pub fn parts_are_read()
    ensures { PartsAreRead }
{}

/// The computed message of a list's beginning is the one that ends there.
pub fn messages_end()
    ensures { ComputedMessagesEnd }
{}

/// An assembler that is fed a list finds just the messages that end in it.
pub fn messages_assemble()
    ensures { MessagesAssemble }
{}

/// A body is read as a command exactly where it is that command's bytes, and the command is within its limits.
pub fn commands_are_their_bytes()
    ensures { CommandsAreTheirBytes }
{}

/// Bytes are read as a snapshot exactly where they are it, and its contents are within their limits.
pub fn snapshots_are_their_bytes()
    ensures { SnapshotsAreTheirBytes }
{}

/// Whatever is applied to contents that a snapshot can have, they stay such.
pub fn contents_stay_within()
    ensures { ContentsStayWithin }
{}

/// Entry by entry, a replica comes to the contents of the definition.
pub fn replicas_show()
    ensures { ReplicasShow }
{}
