// Bit fields of a byte slice: runs of bits at any bit offset, the most significant bit first, by shifts and masks.
//
// Bit 0 of a slice is the top bit of its byte 0. `put(place, 4, 3, 5)` lays the three bits 101 over the bits 4, 5 and 6
// of `place` and leaves every other bit as it was; `get(place, 4, 3)` is then 5.
#![tactic(auto)]

mod bytes;
pub mod field;
pub mod laws;
pub mod row;
pub mod run;
#[cfg(test)]
mod tests;
