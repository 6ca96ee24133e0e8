// What calls make of the tables that a caller lends. A table may hold anything, so whatever a call searches or reads is judged first.
#![tactic(auto)]

pub mod bits;
pub mod copies;
pub mod fetches;
pub mod numbers;
pub mod updates;
