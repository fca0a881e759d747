//! The numbers that calls give.

/// All was done.
pub(crate) const DONE: i32 = 0;
/// There was no memory, now or before.
pub(crate) const NO_MEMORY: i32 = 1;
/// The room is too short for the answer.
pub(crate) const NO_ROOM: i32 = 2;
/// The handle is closed.
pub(crate) const CLOSED: i32 = 3;
/// The handle is open.
pub(crate) const OPEN: i32 = 4;
/// The options are none.
pub(crate) const BAD_OPTIONS: i32 = 5;
/// The answer to another line or event waits for room.
pub(crate) const OTHER: i32 = 6;
