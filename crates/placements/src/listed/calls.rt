// The listed placement: the home of a site that does not hold a register is the register's lowest holder.
ghost use Rattle.std.specs.Prelude.{◌≡◌, ◌≤◌, false, length, replicate};
ghost use Rattle.clocks.specs.Sites.{has};
ghost use Rattle.placements.specs.Making.{Made, set_range, sets_range, fillable, padded};
ghost use Rattle.placements.specs.Placing.{listed_held, lowest, listed_home};
ghost use Rattle.placements.specs.ListedLaws.{listed_some};
ghost use Rattle.std.proofs.Common.{rules};

use crate::listed::Listed;
use crate::size::Size;
use crate::{Homes, Placement};
use clocks::set::has;
use values::fault::{Fault, Refusal};

// Is a set of sites not empty, and of sites that there are?
fn in_range(size: Size, m: u8) -> bool
    ensures { result ≡ set_range size.sites m }
{
    m > 0 && u16::from(m) < 1u16 << size.sites
}

fn all_in_range(size: Size, sets: &[u8]) -> bool
    ensures { result ≡ sets_range size.sites sets.now }
{
    sets.iter().all(|&m| in_range(size, m))
}

fn copied(sets: &[u8]) -> [u8; 256]
    requires { length sets.now ≤ 256 }
    ensures { result ≡ padded sets.now }
{
    let mut table = [0u8; 256];
    table[..sets.len()].copy_from_slice(sets);
    table
}

// The lowest site of a set, or the site count if it has none of the sites.
// Stays: the site count and no Option, as the definition of a home has it, which is total; a set of the table has a site.
fn first_of(size: Size, m: u8) -> u8
    ensures { result ≡ lowest size.sites 0 (has m) }
{
    (0..size.sites).find(|&l| has(m, l)).unwrap_or(size.sites)
}

impl Listed {
    /// A lawful placement to fill: one register on two sites, held by site 0.
    pub fn new() -> Listed
        ensures { (result.size.sites ≡ 2) × (result.size.registers ≡ 1) × (result.sets ≡ replicate 256 1) }
    {
        Listed {
            size: Size {
                sites: 2,
                registers: 1,
            },
            sets: [1; 256],
        }
    }

    /// Makes this the placement of the table, with a register for each set. Refused with 1, and left as it was, unless
    /// there are 2 to 8 sites, 1 to 256 sets, and each set has a site and only sites below n.
    pub fn fill(&mut self, sites: u8, sets: &[u8]) -> Result<(), Fault>
        ensures answer { Made (fillable sites sets.now) (λ _. (self.new.size.sites ≡ sites) × (self.new.size.registers ≡ length sets.now) × (self.new.sets ≡ padded sets.now)) result }
        ensures same { fillable sites sets.now ≡ false → self.new ≡ self.old }
    {
        let registers = u16::try_from(sets.len()).map_err(|_| Fault::of_site(Refusal::OutOfRange))?;
        let size = Size::new(sites, registers)?;
        if !all_in_range(size, sets) {
            return Err(Fault::of_site(Refusal::OutOfRange));
        }
        *self = Listed {
            size,
            sets: copied(sets),
        };
        Ok(())
    }
}

impl Placement for Listed {
    ghost count = { λ p. p.size.sites };

    ghost size = { λ p. p.size.registers };

    ghost held = { λ p r. listed_held p.size.sites p.size.registers p.sets r };

    ghost few = { Prim.search rules };

    ghost sized = { Prim.search rules };

    ghost outside = { Prim.search rules };

    ghost none = { Prim.search rules };

    // a set that is not empty has a lowest site
    ghost some = { λ p r k. (lowest p.size.sites 0 (listed_held p.size.sites p.size.registers p.sets r), listed_some p.size.sites p.size.registers r p.sets k (p.each r k).0 (p.each r k).1) };

    fn sites(&self) -> u8 {
        self.size.sites
    }

    fn registers(&self) -> u16 {
        self.size.registers
    }

    #[tactic(auto, using(clocks::proofs::SiteLaws::told_empty, crate::specs::ListedLaws::listed_told))]
    fn holders(&self, r: u16) -> u8 {
        if r < self.size.registers {
            self.sets[r as usize]
        } else {
            0
        }
    }
}

impl Homes for Listed {
    ghost asked = { λ p. listed_home p.size.sites p.size.registers p.sets };

    ghost own = { Prim.search rules };

    // the home is the reader, if it holds the register, or the lowest holder, and there is one
    ghost other = { λ p l r h k. let a = p.each r k in Prim.search (rules, listed_some) };

    #[tactic(auto, using(crate::specs::ListedLaws::listed_has, crate::specs::ListedLaws::listed_lowest))]
    fn home(&self, reader: u8, r: u16) -> u8 {
        if reader >= self.size.sites || r >= self.size.registers {
            return 0;
        }
        let m = self.sets[r as usize];
        if has(m, reader) {
            reader
        } else {
            first_of(self.size, m)
        }
    }
}
