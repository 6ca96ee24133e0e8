// Matrix clocks: who was told of how many writes of whom. Sites are numbers below n, and n is at most 8.
#![tactic(auto)]

pub mod count;
pub mod matrix;
pub mod row;
pub mod seat;
pub mod set;
