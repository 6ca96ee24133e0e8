// A table gives the holders of each register.
ghost use Rattle.std.specs.Prelude.{ℕ, ◌^◌, ◌<◌, ◌≤◌, slice_index};

use crate::size::Size;

/// The placement on n sites of R registers whose holders are the first R sets of a table.
// Stays: no `==` is derived, since two tables that place alike may differ behind their registers.
#[derive(Clone, Copy, Debug)]
pub struct Listed {
    size: Size,
    // Stays: a fixed table, since nothing is taken from a heap; the register count says how many of its places are in use.
    sets: [u8; 256],
    ghost each: { (r : ℕ) → r < size.registers → (1 ≤ slice_index sets r) × (slice_index sets r < 2 ^ size.sites) },
}

pub mod calls;
