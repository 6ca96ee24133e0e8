// Taking a reply at a station.
ghost use Rattle.std.specs.Prelude.{◌≡◌};
ghost use Rattle.protocol.specs.Replying.{take_rule};
ghost use Rattle.protocol.specs.States.{placing};
ghost use Rattle.rack.specs.Stations.{station_state, awaiting_first, ended_held};

use crate::station::session::take_awaiting;
use crate::station::{Held, Station};
use placements::{Homes, Placement};
use protocol::answers::Read;
use values::fault::Fault;
use values::kind::ValueKind;

impl Station {
    /// Takes the reply to the fetch that is out; the session at hand rests from then on.
    pub fn take_reply<V: ValueKind + Drop, P: Homes>(
        &mut self,
        placement: &P,
        bytes: &[u8],
    ) -> Result<Read<V>, Fault>
        ensures answer { result ≡ (awaiting_first self.old.session (λ z. take_rule V.kind (placing P.Homes placement.now) (station_state self.old) z bytes.now) (station_state self.old)).answer }
        ensures after { station_state self.new ≡ (awaiting_first self.old.session (λ z. take_rule V.kind (placing P.Homes placement.now) (station_state self.old) z bytes.now) (station_state self.old)).after }
        ensures session { self.new.session ≡ ended_held self.old.session result }
    {
        let awaiting = take_awaiting(&mut self.session)?;
        // Stays: each arm moves the session, which the closures of `map` and `map_err` cannot both do.
        match self.site.take_reply::<V, P>(
            placement,
            &self.copies,
            &self.updates,
            &self.fetches,
            awaiting,
            bytes,
        ) {
            Ok((idle, read)) => {
                self.session = Some(Held::Resting(idle));
                Ok(read)
            }
            Err((awaiting, fault)) => {
                self.session = Some(Held::Fetching(awaiting));
                Err(fault)
            }
        }
    }
}
