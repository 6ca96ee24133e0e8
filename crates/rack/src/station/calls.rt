// The calls of a station: those of its site, on its tables, with the session that is at hand.
ghost use Rattle.std.specs.Prelude.{◌≡◌};
ghost use Rattle.protocol.specs.Applying.{apply_rule};
ghost use Rattle.protocol.specs.Receiving.{receive_rule};
ghost use Rattle.protocol.specs.States.{placing};
ghost use Rattle.protocol.specs.Writing.{write_rule};
ghost use Rattle.rack.specs.Stations.{station_state, idle_first};

use crate::station::session::take_idle;
use crate::station::{Held, Station};
use placements::{Homes, Placement};
use protocol::answers::{Applied, Written};
use values::fault::Fault;
use values::kind::ValueKind;

// Stays: that the session is as it was is one short equation in each call, and a name for it says no more.
impl Station {
    pub fn receive<V: ValueKind + Drop, P: Homes>(
        &mut self,
        placement: &P,
        bytes: &[u8],
    ) -> Result<(), Fault>
        ensures answer { result ≡ (receive_rule V.kind (placing P.Homes placement.now) (station_state self.old) bytes.now).answer }
        ensures after { station_state self.new ≡ (receive_rule V.kind (placing P.Homes placement.now) (station_state self.old) bytes.now).after }
        ensures session { self.new.session ≡ self.old.session }
    {
        self.site.receive::<V, P>(
            placement,
            &self.copies,
            &mut self.updates,
            &mut self.fetches,
            bytes,
        )
    }

    pub fn apply<V: ValueKind + Drop, P: Homes>(&mut self, placement: &P) -> Result<Applied, Fault>
        ensures answer { result ≡ (apply_rule V.kind (placing P.Homes placement.now) (station_state self.old)).answer }
        ensures after { station_state self.new ≡ (apply_rule V.kind (placing P.Homes placement.now) (station_state self.old)).after }
        ensures session { self.new.session ≡ self.old.session }
    {
        self.site.apply::<V, P>(
            placement,
            &mut self.copies,
            &mut self.updates,
            &self.fetches,
        )
    }

    pub fn write<V: ValueKind + Drop, P: Homes>(
        &mut self,
        placement: &P,
        r: u16,
        value: V,
        place: &mut [u8],
    ) -> Result<Written, Fault>
        ensures answer { result ≡ (idle_first self.old.session (λ z. write_rule V.kind (placing P.Homes placement.now) (station_state self.old) z r value place.old) (station_state self.old) place.old).answer }
        ensures after { station_state self.new ≡ (idle_first self.old.session (λ z. write_rule V.kind (placing P.Homes placement.now) (station_state self.old) z r value place.old) (station_state self.old) place.old).after }
        ensures place { place.new ≡ (idle_first self.old.session (λ z. write_rule V.kind (placing P.Homes placement.now) (station_state self.old) z r value place.old) (station_state self.old) place.old).place }
        ensures session { self.new.session ≡ self.old.session }
    {
        let idle = take_idle(&mut self.session)?;
        let (idle, answer) = self.site.write(
            placement,
            &mut self.copies,
            &self.updates,
            &self.fetches,
            idle,
            r,
            value,
            place,
        );
        self.session = Some(Held::Resting(idle));
        answer
    }
}
