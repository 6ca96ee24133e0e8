// Frames: how messages travel on the cable. Fields follow one another without gaps, the most significant bit first, and zero bits
// fill the last byte; docs/FRAMES.md has the table.
#![tactic(auto)]

pub mod fetch;
pub mod incoming;
pub mod kind;
pub mod laws;
pub mod message;
mod parts;
pub mod reply;
pub mod update;
