// The full placement: no site ever asks another.
ghost use Rattle.std.specs.Prelude.{◌≡◌};
ghost use Rattle.placements.specs.Making.{Made, in_range};
ghost use Rattle.placements.specs.Placing.{full_held};
ghost use Rattle.std.proofs.Common.{rules};

use crate::full::Full;
use crate::size::Size;
use crate::{Homes, Placement};
use values::fault::Fault;

impl Full {
    /// Refused with 1 unless there are 2 to 8 sites and 1 to 256 registers.
    pub fn new(sites: u8, registers: u16) -> Result<Full, Fault>
        ensures { Made (in_range sites registers) (λ p. (p.size.sites ≡ sites) × (p.size.registers ≡ registers)) result }
    {
        Ok(Full {
            size: Size::new(sites, registers)?,
        })
    }
}

impl Placement for Full {
    ghost count = { λ p. p.size.sites };

    ghost size = { λ p. p.size.registers };

    ghost held = { λ p r. full_held p.size.sites p.size.registers r };

    ghost few = { Prim.search rules };

    ghost sized = { Prim.search rules };

    ghost outside = { Prim.search rules };

    ghost none = { Prim.search rules };

    // site 0 holds every register
    ghost some = { λ p r k. (0, Prim.search rules) };

    fn sites(&self) -> u8 {
        self.size.sites
    }

    fn registers(&self) -> u16 {
        self.size.registers
    }

    #[tactic(auto, using(clocks::proofs::SiteLaws::told_empty))]
    fn holders(&self, r: u16) -> u8 {
        if r < self.size.registers {
            ((1u16 << self.size.sites) - 1) as u8
        } else {
            0
        }
    }
}

impl Homes for Full {
    ghost asked = { λ p l r. l };

    ghost own = { Prim.search rules };

    ghost other = { Prim.search rules };

    fn home(&self, reader: u8, r: u16) -> u8 {
        reader
    }
}
