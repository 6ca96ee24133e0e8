// What waits at a site, in order of arrival, and the copies that it keeps.
#![tactic(auto)]

pub mod items;
pub mod list;
pub mod need;
pub mod ready;
#[cfg(test)]
mod tests;
