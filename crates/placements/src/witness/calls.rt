// The witness is its own home; the other sites keep the home that the placement below names.
ghost use Rattle.std.specs.Prelude.{◌≡◌, ◌<◌, true, ◌&&◌, nat_lt};
ghost use Rattle.placements.specs.Making.{Made};
ghost use Rattle.placements.specs.Placing.{witnessed, witnessed_home};
ghost use Rattle.std.proofs.Common.{rules};

use crate::witness::Witness;
use crate::{Homes, Placement};
use clocks::set::with;
use values::fault::{Fault, Refusal};

impl<P: Placement> Placement for Witness<P> {
    ghost count = { λ w. P.Placement.count w.below };

    ghost size = { λ w. P.Placement.size w.below };

    ghost held = { λ w r. witnessed w.site (P.Placement.count w.below) (P.Placement.size w.below) (P.Placement.held w.below) r };

    ghost few = { Prim.search rules };

    ghost sized = { Prim.search rules };

    ghost outside = { Prim.search rules };

    ghost none = { Prim.search rules };

    // who holds a register below the witness still does
    ghost some = { λ p r k. let s = P.Placement.some p.below r k in (s.0, Prim.search rules) };

    fn sites(&self) -> u8 {
        self.below.sites()
    }

    fn registers(&self) -> u16 {
        self.below.registers()
    }

    fn holders(&self, r: u16) -> u8 {
        let m = self.below.holders(r);
        if self.site < self.below.sites() && r < self.below.registers() {
            with(m, self.site)
        } else {
            m
        }
    }
}

impl<P: Homes> Homes for Witness<P> {
    ghost asked = { λ w. witnessed_home w.site (P.Homes.asked w.below) };

    ghost own = { Prim.search rules };

    ghost other = { Prim.search rules };

    fn home(&self, reader: u8, r: u16) -> u8 {
        if reader == self.site {
            reader
        } else {
            self.below.home(reader, r)
        }
    }
}

impl<P: Placement + Drop> Witness<P> {
    /// Refused with 1 if the site is not one of the placement's; the placement is then dropped.
    pub fn over(below: P, site: u8) -> Result<Witness<P>, Fault>
        ensures { Made (nat_lt site (P.Placement.count below)) (λ w. (w.below ≡ below) × (w.site ≡ site)) result }
    {
        if site >= below.sites() {
            return Err(Fault::of_site(Refusal::OutOfRange));
        }
        Ok(Witness { below, site })
    }
}

/// The site that a reader asks for a register once a site is a witness over a placement: again one of its holders.
/// Refused with 1 if the witness is not one of the sites.
pub fn with_witness<P: Homes + Drop>(below: P, site: u8, reader: u8, r: u16) -> Result<u8, Fault>
    ensures { Made (nat_lt site (P.Placement.count below)) (λ h. reader < P.Placement.count below → r < P.Placement.size below → (h ≡ witnessed_home site (P.Homes.asked below) reader r) × (witnessed site (P.Placement.count below) (P.Placement.size below) (P.Placement.held below) r h ≡ true)) result }
{
    let over = Witness::over(below, site)?;
    Ok(over.home(reader, r))
}

/// The same with two witnesses, one over the other.
pub fn with_two_witnesses<P: Homes + Drop>(
    below: P,
    one: u8,
    two: u8,
    reader: u8,
    r: u16,
) -> Result<u8, Fault>
    ensures { Made (nat_lt one (P.Placement.count below) && nat_lt two (P.Placement.count below)) (λ h. reader < P.Placement.count below → r < P.Placement.size below → (h ≡ witnessed_home two (witnessed_home one (P.Homes.asked below)) reader r) × (witnessed two (P.Placement.count below) (P.Placement.size below) (witnessed one (P.Placement.count below) (P.Placement.size below) (P.Placement.held below)) r h ≡ true)) result }
{
    with_witness(Witness::over(below, one)?, two, reader, r)
}
