// Writing a register.
ghost use Rattle.std.specs.Prelude.{◌≡◌, ◌+◌, ◌*◌, ◌<◌, ◌≤◌, true, ◌==◌, List, [], length, if◌then◌else◌, Ok as Answered, slice_index};
ghost use Rattle.clocks.specs.Counts.{limit, within};
ghost use Rattle.clocks.specs.Sites.{has as has_site};
ghost use Rattle.frames.specs.Messages.{update_frame};
ghost use Rattle.frames.specs.Writing.{write_answer, write_place};
ghost use Rattle.protocol.specs.States.{placing};
ghost use Rattle.protocol.specs.Writing.{write_rule, update_size};
ghost use Rattle.sites.specs.States.{state_of, idle};
ghost use Rattle.sites.specs.Written.{room_for, noted};
ghost use Rattle.waiting.specs.declared.items.WaitingFetch.{WaitingFetch as FetchItem};
ghost use Rattle.waiting.specs.declared.items.WaitingUpdate.{WaitingUpdate as UpdateItem};

use crate::session::Idle;
use crate::site::Site;
use clocks::count::can_rise;
use clocks::matrix::Matrix;
use clocks::set::{has, without};
use frames::message::Update;
use frames::update::write_update;
use placements::{Homes, Placement};
use protocol::answers::Written;
use tables::bits::plain;
use values::fault::{Fault, Refusal};
use values::kind::{Bits, ValueKind};
use waiting::items::{Replica, WaitingFetch, WaitingUpdate};

impl Site {
    /// Writes a value to a register, and the update for the other holders into the caller's place. The session is handed back, refused or not.
    pub fn write<V: ValueKind + Drop, P: Homes>(
        &mut self,
        placement: &P,
        copies: &mut [Replica],
        updates: &[WaitingUpdate],
        fetches: &[WaitingFetch],
        session: Idle,
        r: u16,
        value: V,
        place: &mut [u8],
    ) -> (Idle, Result<Written, Fault>)
        ensures session { result.0 ≡ session }
        ensures answer { result.1 ≡ (write_rule V.kind (placing P.Homes placement.now) (state_of self.old copies.old updates.now fetches.now) (idle session) r value place.old).answer }
        ensures after { state_of self.new copies.new updates.now fetches.now ≡ (write_rule V.kind (placing P.Homes placement.now) (state_of self.old copies.old updates.now fetches.now) (idle session) r value place.old).after }
        ensures place { place.new ≡ (write_rule V.kind (placing P.Homes placement.now) (state_of self.old copies.old updates.now fetches.now) (idle session) r value place.old).place }
    {
        let answer = self.try_write(
            placement, copies, updates, fetches, &session, r, value, place,
        );
        (session, answer)
    }

    // Stays: the session comes by reference, so that `?` can refuse while the caller still owns it.
    #[tactic(auto, using(clocks::proofs::SiteLaws::has_told))]
    fn try_write<V: ValueKind + Drop, P: Homes>(
        &mut self,
        placement: &P,
        copies: &mut [Replica],
        updates: &[WaitingUpdate],
        fetches: &[WaitingFetch],
        session: &Idle,
        r: u16,
        value: V,
        place: &mut [u8],
    ) -> Result<Written, Fault>
        ensures answer { result ≡ (write_rule V.kind (placing P.Homes placement.now) (state_of self.old copies.old updates.now fetches.now) (idle session.now) r value place.old).answer }
        ensures after { state_of self.new copies.new updates.now fetches.now ≡ (write_rule V.kind (placing P.Homes placement.now) (state_of self.old copies.old updates.now fetches.now) (idle session.now) r value place.old).after }
        ensures place { place.new ≡ (write_rule V.kind (placing P.Homes placement.now) (state_of self.old copies.old updates.now fetches.now) (idle session.now) r value place.old).place }
    {
        if !self.fits(placement, copies, updates, fetches) {
            return Err(Fault::of_site(Refusal::OtherTables));
        }
        self.idle_here(session, r)?;
        let holders = placement.holders(r);
        if !self.room_for(holders) {
            return Err(Fault::of_site(Refusal::CountAtLimit));
        }
        let mut matrix = self.sent;
        matrix.raise(self.seat, holders);
        let bits = plain(&value);
        let others = without(holders, self.seat.site);
        let label = (self.seat.site, self.written + 1);
        let length = self.send(others, r, &matrix, value, place)?;
        self.note(copies, r, holders, bits, &matrix);
        Ok(Written {
            label,
            others,
            length,
        })
    }

    // Can every count that a write for these holders raises still be raised?
    fn room_for(&self, holders: u8) -> bool
        ensures { result ≡ room_for (state_of self.now [] [] []) holders }
    {
        can_rise(self.written)
            && self.sent.has_room(self.seat, holders)
            && (!has(holders, self.seat.site) || can_rise(self.applied.count(self.seat.site)))
    }

    // Writes the update of the next write, with its matrix, into the caller's place, and answers its length; where there is nobody else, nothing.
    fn send<V: ValueKind + Drop>(
        &self,
        others: u8,
        r: u16,
        matrix: &Matrix,
        value: V,
        place: &mut [u8],
    ) -> Result<usize, Fault>
        requires { self.now.written < limit }
        ensures answer { result ≡ (if others == 0 then Answered 0 else write_answer (update_size V.kind (state_of self.now [] [] [])) (length place.old)) }
        ensures place { place.new ≡ (if others == 0 then place.old else write_place (update_size V.kind (state_of self.now [] [] [])) (update_frame V.kind (record { sites = self.now.seat.count.number; sender = self.now.seat.site; register = r; number = self.now.written + 1; matrix = matrix.now; value = value })) place.old) }
    {
        if others == 0 {
            return Ok(0);
        }
        let update = Update {
            sites: self.seat.count.number,
            sender: self.seat.site,
            register: r,
            number: self.written + 1,
            matrix: *matrix,
            value,
        };
        write_update(&update, place)
    }

    // Counts the write, which has this matrix; where this site is a holder, its value becomes the copy.
    fn note(&mut self, copies: &mut [Replica], r: u16, holders: u8, bits: Bits, matrix: &Matrix)
        requires number_below { self.old.written < limit }
        requires register_below { r < length copies.old }
        requires count_below { has_site holders self.old.seat.site ≡ true → slice_index self.old.applied.counts self.old.seat.site < limit }
        requires matrix_within { within (self.old.seat.count.number * self.old.seat.count.number) matrix.now.counts ≡ true }
        ensures { (updates : List UpdateItem) (fetches : List FetchItem) → state_of self.new copies.new updates fetches ≡ noted (state_of self.old copies.old updates fetches) r (has_site holders self.old.seat.site) bits.bytes matrix.now.counts }
    {
        self.sent = *matrix;
        self.written += 1;
        if has(holders, self.seat.site) {
            self.applied.raise(self.seat.site);
            copies[r as usize] = Replica {
                bits,
                matrix: *matrix,
                label: Some((self.seat.site, self.written)),
            };
        }
    }
}
