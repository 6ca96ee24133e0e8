// Placements: which sites hold which registers, and which site a reader asks that does not hold one.
#![tactic(auto)]

ghost use Rattle.std.specs.Prelude.{◌≡◌, ℕ, ◌<◌, ◌≤◌, Bool, true, false};
ghost use Rattle.clocks.specs.Sites.{told};

pub mod full;
pub mod listed;
pub mod ring;
mod size;
#[cfg(test)]
mod tests;
pub mod witness;

/// A placement of the registers on the sites. Its answers depend on it alone, so asked twice it answers alike.
pub trait Placement {
    // How many sites there are, how many registers, and whether register r is held at site l.
    ghost count: { Self → ℕ };

    ghost size: { Self → ℕ };

    ghost held: { Self → ℕ → ℕ → Bool };

    fn sites(&self) -> u8
        ensures { result ≡ count self.now };

    fn registers(&self) -> u16
        ensures { result ≡ size self.now };

    /// The set of the sites that hold register r.
    fn holders(&self, r: u16) -> u8
        ensures { result ≡ told (count self.now) (held self.now r) };

    ghost few: { (p : Self) → (2 ≤ count p) × (count p ≤ 8) };

    ghost sized: { (p : Self) → (1 ≤ size p) × (size p ≤ 256) };

    ghost outside: { (p : Self) (r l : ℕ) → count p ≤ l → held p r l ≡ false };

    ghost none: { (p : Self) (r l : ℕ) → size p ≤ r → held p r l ≡ false };

    ghost some: { (p : Self) (r : ℕ) → r < size p → (l : ℕ) × (held p r l ≡ true) };
}

/// A placement that also names, for each reader and register, the site that answers: a holder is its own home, and the
/// home of any other site is some holder.
pub trait Homes: Placement {
    ghost asked: { Self → ℕ → ℕ → ℕ };

    fn home(&self, reader: u8, r: u16) -> u8
        ensures { reader < Self.Placement.count self.now → r < Self.Placement.size self.now → result ≡ asked self.now reader r };

    ghost own: { (p : Self) (l r : ℕ) → Self.Placement.held p r l ≡ true → asked p l r ≡ l };

    ghost other: { (p : Self) (l r : ℕ) → l < Self.Placement.count p → r < Self.Placement.size p → Self.Placement.held p r (asked p l r) ≡ true };
}

/// The site that a reader asks for a register: a site, and a holder of it.
pub fn ask<P: Homes>(p: &P, reader: u8, r: u16) -> u8
    requires reader_bound { reader < P.Placement.count p.now }
    requires r_bound { r < P.Placement.size p.now }
    ensures named { result ≡ P.Homes.asked p.now reader r }
    ensures holds { P.Placement.held p.now r result ≡ true }
    ensures below { result < P.Placement.count p.now }
{
    p.home(reader, r)
}
