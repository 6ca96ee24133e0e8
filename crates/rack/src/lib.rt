// A rack: its sites with their tables and sessions.
#![tactic(auto)]

pub mod station;
