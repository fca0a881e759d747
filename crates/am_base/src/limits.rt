//! The limits of the numbers that a group's data and packets carry.

/// The greatest number of an entry, of a round and of a request.
pub const MOST_NUMBER: u32 = 2_000_000_000;

/// The greatest resilience of a view: so many stops at most does an accepted entry survive.
pub const MOST_RESILIENCE: u8 = 15;

/// The greatest window: so many entries may stand above the base where one is numbered.
pub const MOST_WINDOW: u16 = 1_008;

/// How many bytes a body has at most.
pub const MOST_BODY: usize = 1_024;

/// How many bytes a packet has at most.
pub const MOST_PACKET: usize = 1_152;

/// How many events a run has at most.
pub const MOST_EVENTS: usize = 100_000;
