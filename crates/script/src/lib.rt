// The bench's scripts: the lines of a text, and the report that a script gets.
#![tactic(auto)]

pub mod lines;
pub mod report;
