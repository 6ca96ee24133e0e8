// What can be done with a waiting list. Each `name` clause says that the list stays over the same lent places.
ghost use Rattle.std.specs.Prelude.{◌≡◌, ◌+◌, ◌<◌, ◌≤◌, min, length, take, slice_index_or, slice_set};
ghost use Rattle.clocks.specs.Rows.{nowhere_below};
ghost use Rattle.waiting.specs.Queues.{first_where, closed_up, push_answer};

use crate::list::WaitingList;
use crate::need::Need;
use crate::ready::first_ready;
use clocks::row::Row;
use clocks::seat::Seat;
use values::fault::{Fault, Refusal};

impl<'a, T: Need + Copy> WaitingList<'a, T> {
    /// The list of the items in the first `count` places.
    pub fn over(places: &'a mut [T], count: usize) -> WaitingList<'a, T>
        requires { count ≤ length places.old }
        ensures count { result.count ≡ count }
        ensures places { result.places.now ≡ places.old }
        ensures name { result.places.ghost_name ≡ places.entry.ghost_name }
    {
        WaitingList { places, count }
    }

    /// How many items wait.
    pub fn count(&self) -> usize
        ensures { result ≡ self.now.count }
    {
        self.count
    }

    /// Puts an item last, or refuses it with 12 where every place is taken.
    pub fn push(&mut self, item: T) -> Result<(), Fault>
        ensures answer { result ≡ push_answer self.old.count (length self.old.places.now) }
        ensures places { self.new.places.now ≡ slice_set self.old.places.now self.old.count item }
        ensures count { self.new.count ≡ min (self.old.count + 1) (length self.old.places.now) }
        ensures name { self.new.places.ghost_name ≡ self.old.places.ghost_name }
    {
        // Stays: `get_mut`, and `first_mut` of the rest, tell a proof only the length of what they write to, so the place is tested and then written by its index.
        if self.count >= self.places.len() {
            return Err(Fault::of_site(Refusal::ListIsFull));
        }
        self.places[self.count] = item;
        self.count += 1;
        Ok(())
    }

    /// Where the oldest ready item stands: one whose need is nowhere above `applied`.
    pub fn oldest_ready(&self, seat: Seat, applied: &Row) -> Option<usize>
        ensures { result ≡ first_where (λ x. nowhere_below seat.count.number applied.now.counts (T.Need.needed x seat.count.number seat.site)) 0 (take self.now.count self.now.places.now) }
    {
        first_ready(&self.places[..self.count], seat, applied)
    }

    /// Takes an item out; the later ones move up in their order, and the last place is free again.
    pub fn take(&mut self, index: usize) -> T
        requires { index < self.old.count }
        ensures result { result ≡ slice_index_or self.old.places.now index result }
        ensures places { self.new.places.now ≡ closed_up index self.old.count self.old.places.now }
        ensures count { self.new.count + 1 ≡ self.old.count }
        ensures name { self.new.places.ghost_name ≡ self.old.places.ghost_name }
    {
        let item = self.places[index];
        self.places.copy_within(index + 1..self.count, index);
        self.count -= 1;
        item
    }
}
