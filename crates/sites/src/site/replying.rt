// Taking a reply, which ends the fetch as a local read of what it brings.
ghost use Rattle.std.specs.Prelude.{◌≡◌, ◌≤◌, []};
ghost use Rattle.protocol.specs.Replying.{take_rule, reply_for_here, of_the_fetch};
ghost use Rattle.protocol.specs.States.{placing};
ghost use Rattle.protocol.specs.Words.{caught_up};
ghost use Rattle.clocks.specs.Matrices.{column};
ghost use Rattle.sites.specs.States.{state_of, awaiting};
ghost use Rattle.sites.specs.Tests.{taken_over};

use crate::session::{Awaiting, Idle};
use crate::site::Site;
use frames::message::Reply;
use frames::reply::read_reply;
use placements::{Homes, Placement};
use protocol::answers::Read;
use values::fault::{Fault, Refusal};
use values::kind::ValueKind;
use waiting::items::{Replica, WaitingFetch, WaitingUpdate};

impl Site {
    /// Answers what the reply brings, if the own site has applied all that it follows and that is bound for here. The session is idle again; a refused
    /// call hands the awaiting one back.
    pub fn take_reply<V: ValueKind + Drop, P: Homes>(
        &mut self,
        placement: &P,
        copies: &[Replica],
        updates: &[WaitingUpdate],
        fetches: &[WaitingFetch],
        session: Awaiting,
        bytes: &[u8],
    ) -> Result<(Idle, Read<V>), (Awaiting, Fault)>
        ensures answer { result ≡ taken_over session (take_rule V.kind (placing P.Homes placement.now) (state_of self.old copies.now updates.now fetches.now) (awaiting session) bytes.now).answer }
        ensures after { state_of self.new copies.now updates.now fetches.now ≡ (take_rule V.kind (placing P.Homes placement.now) (state_of self.old copies.now updates.now fetches.now) (awaiting session) bytes.now).after }
    {
        // Stays: each arm moves the session, which the closures of `map` and `map_err` cannot both do.
        match self.try_take::<V, P>(placement, copies, updates, fetches, &session, bytes) {
            Ok(read) => Ok((session.into_idle(), read)),
            Err(fault) => Err((session, fault)),
        }
    }

    // Stays: the session comes by reference, so that `?` can refuse while the caller still owns it.
    fn try_take<V: ValueKind + Drop, P: Homes>(
        &mut self,
        placement: &P,
        copies: &[Replica],
        updates: &[WaitingUpdate],
        fetches: &[WaitingFetch],
        session: &Awaiting,
        bytes: &[u8],
    ) -> Result<Read<V>, Fault>
        ensures answer { result ≡ (take_rule V.kind (placing P.Homes placement.now) (state_of self.old copies.now updates.now fetches.now) (awaiting session.now) bytes.now).answer }
        ensures after { state_of self.new copies.now updates.now fetches.now ≡ (take_rule V.kind (placing P.Homes placement.now) (state_of self.old copies.now updates.now fetches.now) (awaiting session.now) bytes.now).after }
    {
        if !self.fits(placement, copies, updates, fetches) {
            return Err(Fault::of_site(Refusal::OtherTables));
        }
        self.awaited(session)?;
        let reply = read_reply::<V>(bytes)?;
        if !self.reply_for_here(&reply) {
            return Err(Fault::of_site(Refusal::NotForThisSite));
        }
        if !self.of_the_fetch(&reply) {
            return Err(Fault::of_site(Refusal::OtherFetch));
        }
        if !self.caught_up(&reply) {
            return Err(Fault::of_site(Refusal::NotCaughtUp));
        }
        let Reply {
            label,
            matrix,
            value,
            ..
        } = reply;
        self.sent.merge(self.seat.count, &matrix);
        self.out = None;
        Ok(Read { value, label })
    }

    // Is the reply for a rack of as many sites and for this reader?
    fn reply_for_here<V: ValueKind>(&self, reply: &Reply<V>) -> bool
        ensures { result ≡ reply_for_here (state_of self.now [] [] []) reply.now }
    {
        reply.sites == self.seat.count.number && reply.reader == self.seat.site
    }

    // Has it the number, the register and the home of the fetch that is out?
    fn of_the_fetch<V: ValueKind>(&self, reply: &Reply<V>) -> bool
        ensures { result ≡ of_the_fetch (state_of self.now [] [] []) reply.now }
    {
        reply.number == self.fetched && self.out == Some((reply.register, reply.home))
    }

    // The second gate: has this site applied all that the reply's write follows and that is bound for here?
    fn caught_up<V: ValueKind>(&self, reply: &Reply<V>) -> bool
        ensures { result ≡ caught_up (state_of self.now [] [] []) (column self.now.seat.count.number reply.now.matrix.counts self.now.seat.site) }
    {
        self.applied
            .nowhere_below(self.seat.count, &reply.matrix.column(self.seat))
    }
}
