// A site of the rack: what it keeps, and its calls. Every call answers and leaves exactly what its rule says (crates/protocol/specs), whatever
// numbers, sessions, bytes and tables it is handed.
#![tactic(auto)]

pub mod session;
pub mod site;
