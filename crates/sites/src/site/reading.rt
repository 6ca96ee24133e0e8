// Reading a register that is held here.
ghost use Rattle.std.specs.Prelude.{◌≡◌, length, Some, None, if◌then◌else◌, slice_index_or};
ghost use Rattle.std.specs.Option.{option_copied};
ghost use Rattle.protocol.specs.Reading.{read_rule};
ghost use Rattle.protocol.specs.States.{placing};
ghost use Rattle.protocol.specs.Words.{no_copy};
ghost use Rattle.sites.specs.States.{state_of, idle};

use crate::session::Idle;
use crate::site::Site;
use placements::{Homes, Placement};
use protocol::answers::Read;
use tables::copies::copy_ok;
use values::fault::{Fault, Refusal};
use values::kind::ValueKind;
use waiting::items::{Replica, WaitingFetch, WaitingUpdate};

impl Site {
    /// Answers the copy's value and label. What the copy's matrix counts is causally past here from now on. The session is handed back, refused or not.
    pub fn read<V: ValueKind + Drop, P: Homes>(
        &mut self,
        placement: &P,
        copies: &[Replica],
        updates: &[WaitingUpdate],
        fetches: &[WaitingFetch],
        session: Idle,
        r: u16,
    ) -> (Idle, Result<Read<V>, Fault>)
        ensures session { result.0 ≡ session }
        ensures answer { result.1 ≡ (read_rule V.kind (placing P.Homes placement.now) (state_of self.old copies.now updates.now fetches.now) (idle session) r).answer }
        ensures after { state_of self.new copies.now updates.now fetches.now ≡ (read_rule V.kind (placing P.Homes placement.now) (state_of self.old copies.now updates.now fetches.now) (idle session) r).after }
    {
        let answer = self.try_read::<V, P>(placement, copies, updates, fetches, &session, r);
        (session, answer)
    }

    // Stays: the session comes by reference, so that `?` can refuse while the caller still owns it.
    fn try_read<V: ValueKind + Drop, P: Homes>(
        &mut self,
        placement: &P,
        copies: &[Replica],
        updates: &[WaitingUpdate],
        fetches: &[WaitingFetch],
        session: &Idle,
        r: u16,
    ) -> Result<Read<V>, Fault>
        ensures answer { result ≡ (read_rule V.kind (placing P.Homes placement.now) (state_of self.old copies.now updates.now fetches.now) (idle session.now) r).answer }
        ensures after { state_of self.new copies.now updates.now fetches.now ≡ (read_rule V.kind (placing P.Homes placement.now) (state_of self.old copies.now updates.now fetches.now) (idle session.now) r).after }
    {
        if !self.fits(placement, copies, updates, fetches) {
            return Err(Fault::of_site(Refusal::OtherTables));
        }
        let copy = self.held_copy(placement, copies, r);
        if !copy.is_none_or(|copy| copy_ok::<V>(copy, self.seat.count)) {
            return Err(Fault::of_site(Refusal::OtherTables));
        }
        self.idle_here(session, r)?;
        let copy = copy.ok_or(Fault::of_site(Refusal::NotHeldHere))?;
        let value = V::read(&copy.bits)?;
        self.sent.merge(self.seat.count, &copy.matrix);
        Ok(Read {
            value,
            label: copy.label,
        })
    }

    // The copy of register r, where it is held here.
    fn held_copy<'a, P: Homes>(
        &self,
        placement: &P,
        copies: &'a [Replica],
        r: u16,
    ) -> Option<&'a Replica>
        requires same_sites { P.Placement.count placement.now ≡ self.now.seat.count.number }
        requires copies_len { length copies.now ≡ P.Placement.size placement.now }
        ensures { option_copied result ≡ (if P.Placement.held placement.now r self.now.seat.site then Some (slice_index_or copies.now r no_copy) else None) }
    {
        // Stays: an `if` and no `then`, whose closure is not told what the test said.
        if self.holds(placement, r) {
            Some(&copies[r as usize])
        } else {
            None
        }
    }
}
