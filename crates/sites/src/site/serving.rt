// Serving the oldest fetch that is ready.
ghost use Rattle.std.specs.Prelude.{◌≡◌, ◌<◌, List, [], length, slice_index_or};
ghost use Rattle.waiting.specs.declared.items.WaitingUpdate.{WaitingUpdate as UpdateItem};
ghost use Rattle.protocol.specs.Serving.{serve_rule, served_at, no_fetch};
ghost use Rattle.protocol.specs.States.{placing};
ghost use Rattle.sites.specs.Replies.{replies, replied_in};
ghost use Rattle.sites.specs.States.{state_of};

use crate::site::Site;
use frames::message::Reply;
use frames::reply::write_reply;
use placements::{Homes, Placement};
use protocol::answers::Served;
use tables::copies::copy_ok;
use values::fault::{Fault, Refusal};
use values::kind::ValueKind;
use waiting::items::{Replica, WaitingFetch, WaitingUpdate};
use waiting::list::WaitingList;

impl Site {
    /// Takes the oldest ready fetch out of its list, and writes a reply with the copy into the caller's place.
    pub fn serve<V: ValueKind + Drop, P: Homes>(
        &mut self,
        placement: &P,
        copies: &[Replica],
        updates: &[WaitingUpdate],
        fetches: &mut [WaitingFetch],
        place: &mut [u8],
    ) -> Result<Served, Fault>
        ensures answer { result ≡ (serve_rule V.kind (placing P.Homes placement.now) (state_of self.old copies.now updates.now fetches.old) place.old).answer }
        ensures after { state_of self.new copies.now updates.now fetches.new ≡ (serve_rule V.kind (placing P.Homes placement.now) (state_of self.old copies.now updates.now fetches.old) place.old).after }
        ensures place { place.new ≡ (serve_rule V.kind (placing P.Homes placement.now) (state_of self.old copies.now updates.now fetches.old) place.old).place }
    {
        if !self.fits(placement, copies, updates, fetches) {
            return Err(Fault::of_site(Refusal::OtherTables));
        }
        if !self.fetches_ok(fetches) {
            return Err(Fault::of_site(Refusal::OtherTables));
        }
        let index = self
            .oldest(&fetches[..self.fetches_waiting])
            .ok_or(Fault::of_site(Refusal::NoneReady))?;
        self.serve_at::<V>(copies, fetches, index, place)
    }

    // Takes the fetch at a place of the list out, once its reply is written.
    fn serve_at<V: ValueKind + Drop>(
        &mut self,
        copies: &[Replica],
        fetches: &mut [WaitingFetch],
        index: usize,
        place: &mut [u8],
    ) -> Result<Served, Fault>
        requires index_below { index < self.old.fetches_waiting }
        requires fetches_len { length fetches.old ≡ self.old.fetch_places }
        requires register_below { (slice_index_or fetches.old index no_fetch).register < length copies.now }
        ensures answer { (updates : List UpdateItem) → result ≡ (served_at V.kind (state_of self.old copies.now updates fetches.old) place.old index (slice_index_or fetches.old index no_fetch)).answer }
        ensures after { (updates : List UpdateItem) → state_of self.new copies.now updates fetches.new ≡ (served_at V.kind (state_of self.old copies.now updates fetches.old) place.old index (slice_index_or fetches.old index no_fetch)).after }
        ensures place { (updates : List UpdateItem) → place.new ≡ (served_at V.kind (state_of self.old copies.now updates fetches.old) place.old index (slice_index_or fetches.old index no_fetch)).place }
    {
        let fetch = fetches[index];
        let length = self.reply::<V>(&copies[fetch.register as usize], &fetch, place)?;
        let _ = WaitingList::over(fetches, self.fetches_waiting).take(index);
        self.fetches_waiting -= 1;
        Ok(Served {
            reader: fetch.reader,
            length,
        })
    }

    // Writes the reply to a fetch, with this copy, into the caller's place, and answers its length.
    fn reply<V: ValueKind + Drop>(
        &self,
        copy: &Replica,
        fetch: &WaitingFetch,
        place: &mut [u8],
    ) -> Result<usize, Fault>
        ensures answer { result ≡ replies V.kind (state_of self.now [] [] []) copy.now (length place.old) }
        ensures place { place.new ≡ replied_in V.kind (state_of self.now [] [] []) copy.now fetch.now place.old }
    {
        if !copy_ok::<V>(copy, self.seat.count) {
            return Err(Fault::of_site(Refusal::OtherTables));
        }
        let value = V::read(&copy.bits)?;
        let reply = Reply {
            sites: self.seat.count.number,
            home: self.seat.site,
            reader: fetch.reader,
            register: fetch.register,
            number: fetch.number,
            label: copy.label,
            matrix: copy.matrix,
            value,
        };
        write_reply(&reply, place)
    }
}
