// Abandoning a fetch.
ghost use Rattle.std.specs.Prelude.{◌≡◌, List, []};
ghost use Rattle.protocol.specs.Replying.{abandon_rule};
ghost use Rattle.sites.specs.States.{state_of, awaiting};
ghost use Rattle.sites.specs.Tests.{given_up};
ghost use Rattle.waiting.specs.declared.items.Replica.{Replica as Copy};
ghost use Rattle.waiting.specs.declared.items.WaitingFetch.{WaitingFetch as FetchItem};
ghost use Rattle.waiting.specs.declared.items.WaitingUpdate.{WaitingUpdate as UpdateItem};

use crate::session::{Awaiting, Idle};
use crate::site::Site;
use values::fault::Fault;

impl Site {
    /// Forgets the fetch that is out; the session is idle again. A refused call hands the session back. No table is lent, and none is touched.
    pub fn abandon(&mut self, session: Awaiting) -> Result<Idle, (Awaiting, Fault)>
        ensures answer { result ≡ given_up session (abandon_rule (state_of self.old [] [] []) (awaiting session)).answer }
        ensures after { (copies : List Copy) (updates : List UpdateItem) (fetches : List FetchItem) → state_of self.new copies updates fetches ≡ (abandon_rule (state_of self.old copies updates fetches) (awaiting session)).after }
    {
        if let Err(fault) = self.awaited(&session) {
            return Err((session, fault));
        }
        self.out = None;
        Ok(session.into_idle())
    }
}
