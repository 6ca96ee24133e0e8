// A row of counts, one for each site: how many writes of each site are known somewhere.
ghost use Rattle.std.specs.Prelude.{◌≡◌, ◌+◌, ◌<◌, ◌≤◌, replicate, slice_index};
ghost use Rattle.clocks.specs.Counts.{limit, within};
ghost use Rattle.clocks.specs.Rows.{raised_at, less_one, nowhere_below};

use crate::count::all_allowed;
use crate::seat::SiteCount;

/// Counts for up to eight sites. Where there are n sites, what lies behind the first n counts belongs to nobody.
// Stays: no length and no `==` of its own, as with a matrix.
#[derive(Clone, Copy)]
pub struct Row {
    pub counts: [u32; 8],
}

impl Row {
    /// The row of a site that knows of no write.
    pub fn zero() -> Row
        ensures { result.counts ≡ replicate 8 0 }
    {
        Row { counts: [0; 8] }
    }

    /// The count of site k.
    pub fn count(&self, k: u8) -> u32
        requires { k < 8 }
        ensures { result ≡ slice_index self.now.counts k }
    {
        self.counts[usize::from(k)]
    }

    /// One more write of site k.
    pub fn raise(&mut self, k: u8)
        requires k_bound { k < 8 }
        requires can_rise { slice_index self.old.counts k < limit }
        ensures { self.new.counts ≡ raised_at self.old.counts k }
    {
        self.counts[k as usize] += 1;
    }

    /// The row without one write of site k: what must be known before that write.
    pub fn less_one(&self, k: u8) -> Row
        ensures { result.counts ≡ less_one self.now.counts k }
    {
        let mut counts = self.counts;
        if let Some(count) = self.counts.get(usize::from(k)) {
            counts[usize::from(k)] = count.saturating_sub(1);
        }
        Row { counts }
    }

    /// Does this row know at least what `other` knows, of each of n sites?
    pub fn nowhere_below(&self, n: SiteCount, other: &Row) -> bool
        ensures { result ≡ nowhere_below n.number self.now.counts other.now.counts }
    {
        self.counts
            .iter()
            .zip(&other.counts)
            .take(n.number.into())
            .all(|(mine, theirs)| mine >= theirs)
    }

    /// Is each of the first n counts one that a clock may hold?
    pub fn within(&self, n: SiteCount) -> bool
        ensures { result ≡ within n.number self.now.counts }
    {
        all_allowed(&self.counts[..usize::from(n.number)])
    }
}
