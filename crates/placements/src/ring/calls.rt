// The ring: the home of a site that does not hold a register is the register's first site.
ghost use Rattle.std.specs.Prelude.{◌≡◌, ◌%◌, ◌<◌, ◌≤◌};
ghost use Rattle.clocks.specs.Sites.{told};
ghost use Rattle.placements.specs.Making.{Made, ring_range};
ghost use Rattle.placements.specs.Placing.{in_row, ring_held, ring_home};
ghost use Rattle.placements.specs.RingLaws.{ring_first};
ghost use Rattle.std.proofs.Common.{rules};

use crate::ring::Ring;
use crate::size::Size;
use crate::{Homes, Placement};
use clocks::set::with;
use values::fault::{Fault, Refusal};

// The remainder of a by n: the only division of the ring.
fn remainder(a: u16, n: u8) -> u8
    requires { 1 ≤ n }
    ensures { result ≡ a % n }
{
    (a % u16::from(n)) as u8
}

impl Ring {
    /// Refused with 1 unless there are 2 to 8 sites, 1 to 256 registers and 1 to n copies.
    pub fn new(sites: u8, registers: u16, copies: u8) -> Result<Ring, Fault>
        ensures { Made (ring_range sites registers copies) (λ p. (p.size.sites ≡ sites) × (p.size.registers ≡ registers) × (p.copies ≡ copies)) result }
    {
        let size = Size::new(sites, registers)?;
        if !(1..=sites).contains(&copies) {
            return Err(Fault::of_site(Refusal::OutOfRange));
        }
        Ok(Ring { size, copies })
    }

    // Is site l one of the holders in a row from the first on?
    fn in_row(&self, first: u8, l: u8) -> bool
        requires { first < self.now.size.sites }
        ensures { result ≡ in_row self.now.size.sites self.now.copies first l }
    {
        let n = self.size.sites;
        l < n && remainder(u16::from(l + n - first), n) < self.copies
    }

    // The set of the holders in a row from the first on.
    fn row(&self, first: u8) -> u8
        requires { first < self.now.size.sites }
        ensures { result ≡ told self.now.size.sites (in_row self.now.size.sites self.now.copies first) }
    {
        (0..self.size.sites).fold(
            0,
            |set, l| if self.in_row(first, l) {
                with(set, l)
            } else {
                set
            },
        )
    }
}

impl Placement for Ring {
    ghost count = { λ p. p.size.sites };

    ghost size = { λ p. p.size.registers };

    ghost held = { λ p r. ring_held p.size.sites p.copies p.size.registers r };

    ghost few = { Prim.search rules };

    ghost sized = { Prim.search rules };

    ghost outside = { Prim.search rules };

    ghost none = { Prim.search rules };

    // a register's first site holds it
    ghost some = { λ p r k. (r % p.size.sites, Prim.search (rules, ring_first)) };

    fn sites(&self) -> u8 {
        self.size.sites
    }

    fn registers(&self) -> u16 {
        self.size.registers
    }

    #[tactic(auto, using(clocks::proofs::SiteLaws::told_empty, clocks::proofs::SiteLaws::told_same))]
    fn holders(&self, r: u16) -> u8 {
        if r < self.size.registers {
            self.row(remainder(r, self.size.sites))
        } else {
            0
        }
    }
}

impl Homes for Ring {
    ghost asked = { λ p. ring_home p.size.sites p.copies p.size.registers };

    ghost own = { Prim.search rules };

    // the home is the reader, if it holds the register, or the register's first site
    ghost other = { Prim.search (rules, ring_first) };

    fn home(&self, reader: u8, r: u16) -> u8 {
        let first = remainder(r, self.size.sites);
        if self.in_row(first, reader) {
            reader
        } else {
            first
        }
    }
}
