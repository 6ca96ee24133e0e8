// Beginning a fetch at a station.
ghost use Rattle.std.specs.Prelude.{◌≡◌};
ghost use Rattle.protocol.specs.Fetching.{fetch_rule};
ghost use Rattle.protocol.specs.States.{placing};
ghost use Rattle.rack.specs.Stations.{station_state, idle_first, begun_held};

use crate::station::session::take_idle;
use crate::station::{Held, Station};
use placements::{Homes, Placement};
use protocol::answers::Begun;
use values::fault::Fault;

impl Station {
    /// Begins a fetch with the session that is at hand, which is a fetching one from then on.
    pub fn fetch<P: Homes>(
        &mut self,
        placement: &P,
        r: u16,
        place: &mut [u8],
    ) -> Result<Begun, Fault>
        ensures answer { result ≡ (idle_first self.old.session (λ z. fetch_rule (placing P.Homes placement.now) (station_state self.old) z r place.old) (station_state self.old) place.old).answer }
        ensures after { station_state self.new ≡ (idle_first self.old.session (λ z. fetch_rule (placing P.Homes placement.now) (station_state self.old) z r place.old) (station_state self.old) place.old).after }
        ensures place { place.new ≡ (idle_first self.old.session (λ z. fetch_rule (placing P.Homes placement.now) (station_state self.old) z r place.old) (station_state self.old) place.old).place }
        ensures session { self.new.session ≡ begun_held self.old.session result }
    {
        let idle = take_idle(&mut self.session)?;
        // Stays: each arm moves the session, which the closures of `map` and `map_err` cannot both do.
        match self.site.fetch(
            placement,
            &self.copies,
            &self.updates,
            &self.fetches,
            idle,
            r,
            place,
        ) {
            Ok((awaiting, begun)) => {
                self.session = Some(Held::Fetching(awaiting));
                Ok(begun)
            }
            Err((idle, fault)) => {
                self.session = Some(Held::Resting(idle));
                Err(fault)
            }
        }
    }
}
