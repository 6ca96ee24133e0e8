// Serving a fetch at a station.
ghost use Rattle.std.specs.Prelude.{◌≡◌};
ghost use Rattle.protocol.specs.Serving.{serve_rule};
ghost use Rattle.protocol.specs.States.{placing};
ghost use Rattle.rack.specs.Stations.{station_state};

use crate::station::Station;
use placements::{Homes, Placement};
use protocol::answers::Served;
use values::fault::Fault;
use values::kind::ValueKind;

impl Station {
    /// Serves the oldest ready fetch, whatever session is at hand.
    pub fn serve<V: ValueKind + Drop, P: Homes>(
        &mut self,
        placement: &P,
        place: &mut [u8],
    ) -> Result<Served, Fault>
        ensures answer { result ≡ (serve_rule V.kind (placing P.Homes placement.now) (station_state self.old) place.old).answer }
        ensures after { station_state self.new ≡ (serve_rule V.kind (placing P.Homes placement.now) (station_state self.old) place.old).after }
        ensures place { place.new ≡ (serve_rule V.kind (placing P.Homes placement.now) (station_state self.old) place.old).place }
        ensures session { self.new.session ≡ self.old.session }
    {
        self.site.serve::<V, P>(
            placement,
            &self.copies,
            &self.updates,
            &mut self.fetches,
            place,
        )
    }
}
