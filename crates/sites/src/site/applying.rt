// Applying the oldest update that is ready.
ghost use Rattle.std.specs.Prelude.{◌≡◌, ◌<◌, List, length, slice_index_or};
ghost use Rattle.protocol.specs.Applying.{apply_rule, applied_at, no_update};
ghost use Rattle.waiting.specs.declared.items.WaitingFetch.{WaitingFetch as FetchItem};
ghost use Rattle.protocol.specs.States.{placing};
ghost use Rattle.sites.specs.States.{state_of};

use crate::site::Site;
use clocks::count::can_rise;
use placements::{Homes, Placement};
use protocol::answers::Applied;
use values::fault::{Fault, Refusal};
use values::kind::ValueKind;
use waiting::items::{Replica, WaitingFetch, WaitingUpdate};
use waiting::list::WaitingList;

impl Site {
    /// Takes the oldest ready update out of its list; the copy of its register becomes that write.
    pub fn apply<V: ValueKind + Drop, P: Homes>(
        &mut self,
        placement: &P,
        copies: &mut [Replica],
        updates: &mut [WaitingUpdate],
        fetches: &[WaitingFetch],
    ) -> Result<Applied, Fault>
        ensures answer { result ≡ (apply_rule V.kind (placing P.Homes placement.now) (state_of self.old copies.old updates.old fetches.now)).answer }
        ensures after { state_of self.new copies.new updates.new fetches.now ≡ (apply_rule V.kind (placing P.Homes placement.now) (state_of self.old copies.old updates.old fetches.now)).after }
    {
        if !self.fits(placement, copies, updates, fetches) {
            return Err(Fault::of_site(Refusal::OtherTables));
        }
        if !self.updates_ok::<V>(updates) {
            return Err(Fault::of_site(Refusal::OtherTables));
        }
        let index = self
            .oldest(&updates[..self.updates_waiting])
            .ok_or(Fault::of_site(Refusal::NoneReady))?;
        self.apply_at(copies, updates, index)
    }

    // Takes the update at a place of the list out, unless its sender's count is at the limit; the copy of its register becomes that write.
    fn apply_at(
        &mut self,
        copies: &mut [Replica],
        updates: &mut [WaitingUpdate],
        index: usize,
    ) -> Result<Applied, Fault>
        requires index_below { index < self.old.updates_waiting }
        requires updates_len { length updates.old ≡ self.old.update_places }
        requires sender_below { (slice_index_or updates.old index no_update).sender < self.old.seat.count.number }
        requires register_below { (slice_index_or updates.old index no_update).register < length copies.old }
        ensures answer { (fetches : List FetchItem) → result ≡ (applied_at (state_of self.old copies.old updates.old fetches) index (slice_index_or updates.old index no_update)).answer }
        ensures after { (fetches : List FetchItem) → state_of self.new copies.new updates.new fetches ≡ (applied_at (state_of self.old copies.old updates.old fetches) index (slice_index_or updates.old index no_update)).after }
    {
        let sender = updates[index].sender;
        if !can_rise(self.applied.count(sender)) {
            return Err(Fault::of_site(Refusal::CountAtLimit));
        }
        let update = WaitingList::over(updates, self.updates_waiting).take(index);
        self.updates_waiting -= 1;
        self.applied.raise(sender);
        let label = (sender, update.number);
        copies[update.register as usize] = Replica::from(update);
        Ok(Applied {
            label,
            register: update.register,
        })
    }
}
