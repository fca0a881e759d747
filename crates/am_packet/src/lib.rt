//! Packets, which nodes send each other: how each is spelled as bytes and how bytes are read; and letters, which are a packet's bytes with
//! its addressees.
#![tactic(auto)]

pub mod image_ref;
pub mod kind;
pub mod laws;
pub mod letter;
pub mod packet;
mod refusal;
pub mod vectors;

pub use refusal::PacketRefusal;
