// The rules of every call, as definitions (specs/), and the promises that every run of them keeps. The calls of a site are proved equal to
// the rules; here is hardly any code.
#![tactic(auto)]

pub mod answers;
pub mod promises;
pub mod worked;
