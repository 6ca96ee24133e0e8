// Receiving a frame: an update or a fetch is put last in its list. Nothing becomes causally past here by it.
ghost use Rattle.std.specs.Prelude.{◌≡◌, ◌<◌, List, [], length};
ghost use Rattle.frames.specs.declared.incoming.Incoming.TheVariants.{OfUpdate, OfFetch};
ghost use Rattle.protocol.specs.Receiving.{receive_rule, received, update_for_here, fetch_for_here, update_new};
ghost use Rattle.protocol.specs.States.{placing};
ghost use Rattle.sites.specs.States.{state_of};
ghost use Rattle.waiting.specs.declared.items.Replica.{Replica as CopyItem};
ghost use Rattle.waiting.specs.declared.items.WaitingFetch.{WaitingFetch as FetchItem};
ghost use Rattle.waiting.specs.declared.items.WaitingUpdate.{WaitingUpdate as UpdateItem};

use crate::site::Site;
use frames::incoming::Incoming;
use frames::incoming::reading::read_incoming;
use frames::message::{Fetch, Update};
use placements::{Homes, Placement};
use tables::bits::plain;
use tables::fetches::none_asked_by;
use tables::updates::none_alike;
use values::fault::{Fault, Refusal};
use values::kind::ValueKind;
use waiting::items::{Replica, WaitingFetch, WaitingUpdate};
use waiting::list::WaitingList;

impl Site {
    /// Puts the update or the fetch that the bytes are a frame of last in its list.
    pub fn receive<V: ValueKind + Drop, P: Homes>(
        &mut self,
        placement: &P,
        copies: &[Replica],
        updates: &mut [WaitingUpdate],
        fetches: &mut [WaitingFetch],
        bytes: &[u8],
    ) -> Result<(), Fault>
        ensures answer { result ≡ (receive_rule V.kind (placing P.Homes placement.now) (state_of self.old copies.now updates.old fetches.old) bytes.now).answer }
        ensures after { state_of self.new copies.now updates.new fetches.new ≡ (receive_rule V.kind (placing P.Homes placement.now) (state_of self.old copies.now updates.old fetches.old) bytes.now).after }
    {
        if !self.fits(placement, copies, updates, fetches) {
            return Err(Fault::of_site(Refusal::OtherTables));
        }
        if !self.updates_ok::<V>(updates) {
            return Err(Fault::of_site(Refusal::OtherTables));
        }
        if !self.fetches_ok(fetches) {
            return Err(Fault::of_site(Refusal::OtherTables));
        }
        match read_incoming::<V>(bytes)? {
            Incoming::OfUpdate(update) => self.receive_update(placement, updates, update),
            Incoming::OfFetch(fetch) => self.receive_fetch::<V, P>(placement, fetches, &fetch),
        }
    }

    // Puts an update last in its list.
    fn receive_update<V: ValueKind + Drop, P: Homes>(
        &mut self,
        placement: &P,
        updates: &mut [WaitingUpdate],
        update: Update<V>,
    ) -> Result<(), Fault>
        requires same_sites { P.Placement.count placement.now ≡ self.old.seat.count.number }
        requires updates_len { length updates.old ≡ self.old.update_places }
        requires sender_below { update.sender < update.sites }
        ensures answer { (copies : List CopyItem) (fetches : List FetchItem) → result ≡ (received V.kind (placing P.Homes placement.now) (state_of self.old copies updates.old fetches) (OfUpdate update)).answer }
        ensures after { (copies : List CopyItem) (fetches : List FetchItem) → state_of self.new copies updates.new fetches ≡ (received V.kind (placing P.Homes placement.now) (state_of self.old copies updates.old fetches) (OfUpdate update)).after }
    {
        if !self.update_for_here(placement, &update) {
            return Err(Fault::of_site(Refusal::NotForThisSite));
        }
        if !self.update_new(updates, &update) {
            return Err(Fault::of_site(Refusal::KnownAlready));
        }
        // Stays: no `From`, here and below: the crates of messages and of items do not know one another, and this crate owns neither.
        let item = WaitingUpdate {
            sender: update.sender,
            register: update.register,
            number: update.number,
            matrix: update.matrix,
            bits: plain(&update.value),
        };
        WaitingList::over(updates, self.updates_waiting).push(item)?;
        self.updates_waiting += 1;
        Ok(())
    }

    // Puts a fetch last in its list.
    fn receive_fetch<V: ValueKind, P: Homes>(
        &mut self,
        placement: &P,
        fetches: &mut [WaitingFetch],
        fetch: &Fetch,
    ) -> Result<(), Fault>
        requires same_sites { P.Placement.count placement.now ≡ self.old.seat.count.number }
        requires fetches_len { length fetches.old ≡ self.old.fetch_places }
        ensures answer { (copies : List CopyItem) (updates : List UpdateItem) → result ≡ (received V.kind (placing P.Homes placement.now) (state_of self.old copies updates fetches.old) (OfFetch fetch.now)).answer }
        ensures after { (copies : List CopyItem) (updates : List UpdateItem) → state_of self.new copies updates fetches.new ≡ (received V.kind (placing P.Homes placement.now) (state_of self.old copies updates fetches.old) (OfFetch fetch.now)).after }
    {
        if !self.fetch_for_here(placement, fetch) {
            return Err(Fault::of_site(Refusal::NotForThisSite));
        }
        if !none_asked_by(&fetches[..self.fetches_waiting], fetch.reader, fetch.number) {
            return Err(Fault::of_site(Refusal::KnownAlready));
        }
        let item = WaitingFetch {
            reader: fetch.reader,
            register: fetch.register,
            number: fetch.number,
            column: fetch.column,
        };
        WaitingList::over(fetches, self.fetches_waiting).push(item)?;
        self.fetches_waiting += 1;
        Ok(())
    }

    // Is the update for a rack of as many sites, of another site, of a register held here, and counted for here?
    fn update_for_here<V: ValueKind, P: Homes>(&self, placement: &P, update: &Update<V>) -> bool
        requires same_sites { P.Placement.count placement.now ≡ self.now.seat.count.number }
        requires sender_below { update.now.sender < update.now.sites }
        ensures { result ≡ update_for_here (placing P.Homes placement.now) (state_of self.now [] [] []) update.now }
    {
        update.sites == self.seat.count.number
            && update.sender != self.seat.site
            && self.holds(placement, update.register)
            && 0 < update
                .matrix
                .entry(self.seat.count, update.sender, self.seat.site)
    }

    // Is the update neither applied here nor waiting?
    fn update_new<V: ValueKind>(&self, updates: &[WaitingUpdate], update: &Update<V>) -> bool
        requires sender_below { update.now.sender < self.now.seat.count.number }
        requires updates_len { length updates.now ≡ self.now.update_places }
        ensures { result ≡ update_new (state_of self.now [] updates.now []) update.now }
    {
        let here = update
            .matrix
            .entry(self.seat.count, update.sender, self.seat.site);
        self.applied.count(update.sender) < here
            && none_alike(
                &updates[..self.updates_waiting],
                self.seat,
                update.sender,
                here,
            )
    }

    // Is the fetch for a rack of as many sites, of another site, of a register held here, and for this home?
    fn fetch_for_here<P: Homes>(&self, placement: &P, fetch: &Fetch) -> bool
        requires { P.Placement.count placement.now ≡ self.now.seat.count.number }
        ensures { result ≡ fetch_for_here (placing P.Homes placement.now) (state_of self.now [] [] []) fetch.now }
    {
        fetch.sites == self.seat.count.number
            && fetch.reader != self.seat.site
            && self.holds(placement, fetch.register)
            && fetch.home == self.seat.site
    }
}
