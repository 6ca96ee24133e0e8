// The tests that several calls share.
ghost use Rattle.std.specs.Prelude.{◌≡◌, ◌<◌, ◌≤◌, [], length, take, IfSome, Ok};
ghost use Rattle.waiting.specs.Queues.{first_where};
ghost use Rattle.protocol.specs.States.{placing};
ghost use Rattle.protocol.specs.Words.{fits, ready, updates_ok, fetches_ok, shows};
ghost use Rattle.values.specs.declared.fault.Refusal.TheVariants.{OtherSession};
ghost use Rattle.sites.specs.States.{state_of, idle, awaiting};
ghost use Rattle.sites.specs.Tests.{test, idle_here, awaited};

use crate::session::{Awaiting, Idle};
use crate::site::Site;
use clocks::set::has;
use placements::{Homes, Placement};
use tables::fetches::fetches_ok;
use tables::updates::updates_ok;
use values::fault::{Fault, Refusal};
use values::kind::ValueKind;
use waiting::items::{Replica, WaitingFetch, WaitingUpdate};
use waiting::need::Need;
use waiting::ready::first_ready;

impl Site {
    // Are n, R and the lengths of the tables those of the placement and of the opening?
    pub(crate) fn fits<P: Homes>(
        &self,
        placement: &P,
        copies: &[Replica],
        updates: &[WaitingUpdate],
        fetches: &[WaitingFetch],
    ) -> bool
        ensures { result ≡ fits (placing P.Homes placement.now) (state_of self.now copies.now updates.now fetches.now) }
    {
        placement.sites() == self.seat.count.number
            && placement.registers() == self.registers
            && copies.len() == self.registers as usize
            && updates.len() == self.update_places
            && fetches.len() == self.fetch_places
    }

    // Is register r held here?
    // Stays: that the placement has as many sites, and how long a list is, holds of what is lent to one call, so no type that the site keeps can say it.
    pub(crate) fn holds<P: Homes>(&self, placement: &P, r: u16) -> bool
        requires { P.Placement.count placement.now ≡ self.now.seat.count.number }
        ensures { result ≡ P.Placement.held placement.now r self.now.seat.site }
    {
        has(placement.holders(r), self.seat.site)
    }

    // Are these numbers of a session the site's?
    fn shown(&self, site: u8, fetched: u32) -> Result<(), Fault>
        ensures { result ≡ test (shows (record { site = site; fetched = fetched }) (state_of self.now [] [] [])) OtherSession (Ok tt) }
    {
        if site != self.seat.site || fetched != self.fetched {
            return Err(Fault::of_site(Refusal::OtherSession));
        }
        Ok(())
    }

    // May this idle session work on register r?
    pub(crate) fn idle_here(&self, session: &Idle, r: u16) -> Result<(), Fault>
        ensures { result ≡ idle_here (state_of self.now [] [] []) (idle session.now) r }
    {
        self.shown(session.site, session.fetched)?;
        if self.out.is_some() {
            return Err(Fault::of_site(Refusal::FetchIsOut));
        }
        if r >= self.registers {
            return Err(Fault::of_site(Refusal::NoSuchRegister));
        }
        Ok(())
    }

    // Is this awaiting session that of the fetch that is out?
    pub(crate) fn awaited(&self, session: &Awaiting) -> Result<(), Fault>
        ensures { result ≡ awaited (state_of self.now [] [] []) (awaiting session.now) }
    {
        self.shown(session.site, session.fetched)?;
        if self.out.is_none() {
            return Err(Fault::of_site(Refusal::NoFetchIsOut));
        }
        Ok(())
    }

    // Does no waiting update hold a number out of range?
    pub(crate) fn updates_ok<V: ValueKind + Drop>(&self, updates: &[WaitingUpdate]) -> bool
        requires { length updates.now ≡ self.now.update_places }
        ensures { result ≡ updates_ok V.kind (state_of self.now [] updates.now []) }
    {
        updates_ok::<V>(&updates[..self.updates_waiting], self.seat, self.registers)
    }

    // Does no waiting fetch hold a number out of range?
    pub(crate) fn fetches_ok(&self, fetches: &[WaitingFetch]) -> bool
        requires { length fetches.now ≡ self.now.fetch_places }
        ensures { result ≡ fetches_ok (state_of self.now [] [] fetches.now) }
    {
        let waiting = &fetches[..self.fetches_waiting];
        fetches_ok(waiting, self.seat.count, self.registers)
    }

    // Where the oldest item stands that is ready, among the waiting items of a list of this site.
    pub(crate) fn oldest<T: Need>(&self, items: &[T]) -> Option<usize>
        ensures found { result ≡ first_where (λ y. ready self.now.seat.count.number self.now.applied.counts (T.Need.needed y self.now.seat.count.number self.now.seat.site)) 0 items.now }
        ensures within { IfSome result (λ i. i < length items.now) }
    {
        first_ready(items, self.seat, &self.applied)
    }
}
