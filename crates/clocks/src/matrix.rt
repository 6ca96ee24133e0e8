// A matrix clock: how many writes of each site each site was told of.
ghost use Rattle.std.specs.Prelude.{◌≡◌, ◌+◌, ◌*◌, ◌<◌, ◌≤◌, true, replicate};
ghost use Rattle.clocks.specs.Counts.{within};
ghost use Rattle.clocks.specs.Matrices.{entry, raised, room, merged, column};

use crate::count::{all_allowed, can_rise};
use crate::row::Row;
use crate::seat::{Seat, SiteCount};
use crate::set::has;

/// Counts for up to eight sites. Where there are n sites, row k holds n counts from place k * n on, one for each site that
/// was told of writes of site k; what lies behind the first n * n counts belongs to nobody.
// Stays: no `==` is derived, since two clocks of a rack that agree may differ behind its counts.
#[derive(Clone, Copy)]
pub struct Matrix {
    // Stays: tables are plain and lent, so the counts have no length of their own, and n tells which of them are the matrix's.
    pub counts: [u32; 64],
}

// The place of row k and column l.
fn place(n: SiteCount, k: u8, l: u8) -> usize
    requires k_lt_n { k < n.number }
    requires l_lt_n { l < n.number }
    ensures is { result ≡ k * n.number + l }
    ensures fits { result < 64 }
{
    k as usize * n.number as usize + l as usize
}

/// How many counts belong to the matrix.
pub fn area(n: SiteCount) -> usize
    ensures is { result ≡ n.number * n.number }
    ensures fits { result ≤ 64 }
{
    n.number as usize * n.number as usize
}

impl Matrix {
    /// The clock before any write.
    // Stays: one line here and one at `Row`; a type with the size as a const parameter would share them and `within`, and no other call.
    pub fn zero() -> Matrix
        ensures { result.counts ≡ replicate 64 0 }
    {
        Matrix { counts: [0; 64] }
    }

    /// How many writes of site k site l was told of.
    pub fn entry(&self, n: SiteCount, k: u8, l: u8) -> u32
        requires k_lt_n { k < n.number }
        requires l_lt_n { l < n.number }
        ensures { result ≡ entry n.number self.now.counts k l }
    {
        self.counts[place(n, k, l)]
    }

    /// Can a write of the seat's site that goes to the holders still be counted?
    pub fn has_room(&self, seat: Seat, holders: u8) -> bool
        ensures { result ≡ room seat.count.number self.now.counts seat.site holders }
    {
        (0..seat.count.number).all(|l| !has(holders, l)
            || can_rise(self.entry(seat.count, seat.site, l)))
    }

    /// Counts a write of the seat's site that goes to the holders.
    pub fn raise(&mut self, seat: Seat, holders: u8)
        requires { room seat.count.number self.old.counts seat.site holders ≡ true }
        ensures { self.new.counts ≡ raised seat.count.number self.old.counts seat.site holders }
    {
        let start = place(seat.count, seat.site, 0);
        let row = &mut self.counts[start..start + usize::from(seat.count.number)];
        for (l, count) in row.iter_mut().enumerate() {
            *count += u32::from(has(holders, l as u8));
        }
    }

    /// Takes over what the other clock knows: the larger of the two at each count.
    pub fn merge(&mut self, n: SiteCount, other: &Matrix)
        ensures { self.new.counts ≡ merged n.number self.old.counts other.now.counts }
    {
        // Stays: after a zip of iter_mut a proof knows nothing of the counts written, so the other count is read by its place.
        for (j, count) in self.counts[..area(n)].iter_mut().enumerate() {
            *count = (*count).max(other.counts[j]);
        }
    }

    /// What the seat's site was told of, of each site.
    pub fn column(&self, seat: Seat) -> Row
        ensures { result.counts ≡ column seat.count.number self.now.counts seat.site }
    {
        let mut counts = [0; 8];
        for (k, count) in counts[..usize::from(seat.count.number)]
            .iter_mut()
            .enumerate()
        {
            *count = self.entry(seat.count, k as u8, seat.site);
        }
        Row { counts }
    }

    /// Is each count of the matrix one that a clock may hold?
    pub fn within(&self, n: SiteCount) -> bool
        ensures { result ≡ within (n.number * n.number) self.now.counts }
    {
        all_allowed(&self.counts[..area(n)])
    }
}
