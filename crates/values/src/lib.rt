// Values, the plain bits that they are written as, and refusals.
#![tactic(auto)]

pub mod block;
pub mod coefficient;
pub mod fault;
pub mod kind;
pub mod mode;
#[cfg(test)]
mod tests;
