// How many sites and registers a placement has.
ghost use Rattle.std.specs.Prelude.{◌≡◌, ◌≤◌};
ghost use Rattle.placements.specs.Making.{Made, in_range};

use values::fault::{Fault, Refusal};

// The site count and the register count, each in its range.
// Stays: each placement answers `sites` and `registers` itself, since one method for both would hand out this type, and a witness would ask below all the same.
#[derive(Clone, Copy, Debug, PartialEq, Eq)]
pub(crate) struct Size {
    pub(crate) sites: u8,
    pub(crate) registers: u16,
    ghost few: { (2 ≤ sites) × (sites ≤ 8) },
    ghost sized: { (1 ≤ registers) × (registers ≤ 256) },
}

impl Size {
    // Refused with 1 unless there are 2 to 8 sites and 1 to 256 registers.
    pub(crate) fn new(sites: u8, registers: u16) -> Result<Size, Fault>
        ensures { Made (in_range sites registers) (λ s. (s.sites ≡ sites) × (s.registers ≡ registers)) result }
    {
        if !(2..=8).contains(&sites) || !(1..=256).contains(&registers) {
            return Err(Fault::of_site(Refusal::OutOfRange));
        }
        Ok(Size { sites, registers })
    }
}
