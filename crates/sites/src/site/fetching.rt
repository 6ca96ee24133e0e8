// Beginning a fetch of a register that is not held here.
ghost use Rattle.std.specs.Prelude.{◌≡◌, ◌<◌, OnOk};
ghost use Rattle.clocks.specs.Counts.{limit};
ghost use Rattle.protocol.specs.Fetching.{fetch_rule};
ghost use Rattle.protocol.specs.States.{placing};
ghost use Rattle.sites.specs.States.{state_of, idle};
ghost use Rattle.sites.specs.Tests.{handed};

use crate::session::{Awaiting, Idle};
use crate::site::Site;
use clocks::count::can_rise;
use clocks::seat::Seat;
use frames::fetch::write_fetch;
use frames::message::Fetch;
use placements::{Homes, Placement, ask};
use protocol::answers::Begun;
use values::fault::{Fault, Refusal};
use waiting::items::{Replica, WaitingFetch, WaitingUpdate};

impl Site {
    /// Writes the fetch for the register's home into the caller's place. The idle session becomes an awaiting one; a refused call hands it back.
    pub fn fetch<P: Homes>(
        &mut self,
        placement: &P,
        copies: &[Replica],
        updates: &[WaitingUpdate],
        fetches: &[WaitingFetch],
        session: Idle,
        r: u16,
        place: &mut [u8],
    ) -> Result<(Awaiting, Begun), (Idle, Fault)>
        ensures answer { result ≡ handed session (fetch_rule (placing P.Homes placement.now) (state_of self.old copies.now updates.now fetches.now) (idle session) r place.old).answer }
        ensures after { state_of self.new copies.now updates.now fetches.now ≡ (fetch_rule (placing P.Homes placement.now) (state_of self.old copies.now updates.now fetches.now) (idle session) r place.old).after }
        ensures place { place.new ≡ (fetch_rule (placing P.Homes placement.now) (state_of self.old copies.now updates.now fetches.now) (idle session) r place.old).place }
    {
        // Stays: each arm moves the session, which the closures of `map` and `map_err` cannot both do.
        match self.try_fetch(placement, copies, updates, fetches, &session, r, place) {
            Ok(begun) => Ok((session.into_awaiting(), begun)),
            Err(fault) => Err((session, fault)),
        }
    }

    // Stays: the session comes by reference, so that `?` can refuse while the caller still owns it.
    fn try_fetch<P: Homes>(
        &mut self,
        placement: &P,
        copies: &[Replica],
        updates: &[WaitingUpdate],
        fetches: &[WaitingFetch],
        session: &Idle,
        r: u16,
        place: &mut [u8],
    ) -> Result<Begun, Fault>
        ensures answer { result ≡ (fetch_rule (placing P.Homes placement.now) (state_of self.old copies.now updates.now fetches.now) (idle session.now) r place.old).answer }
        ensures after { state_of self.new copies.now updates.now fetches.now ≡ (fetch_rule (placing P.Homes placement.now) (state_of self.old copies.now updates.now fetches.now) (idle session.now) r place.old).after }
        ensures place { place.new ≡ (fetch_rule (placing P.Homes placement.now) (state_of self.old copies.now updates.now fetches.now) (idle session.now) r place.old).place }
        ensures below { OnOk result (session.now.fetched < limit) }
    {
        if !self.fits(placement, copies, updates, fetches) {
            return Err(Fault::of_site(Refusal::OtherTables));
        }
        self.idle_here(session, r)?;
        if self.holds(placement, r) {
            return Err(Fault::of_site(Refusal::HeldHere));
        }
        if !can_rise(self.fetched) {
            return Err(Fault::of_site(Refusal::CountAtLimit));
        }
        let home = ask(placement, self.seat.site, r);
        let asked = Seat {
            count: self.seat.count,
            site: home,
        };
        let fetch = Fetch {
            sites: self.seat.count.number,
            reader: self.seat.site,
            home,
            register: r,
            number: self.fetched + 1,
            column: self.sent.column(asked),
        };
        let length = write_fetch(&fetch, place)?;
        self.fetched += 1;
        self.out = Some((r, home));
        Ok(Begun { home, length })
    }
}
