// Reading a register that is held at a station.
ghost use Rattle.std.specs.Prelude.{◌≡◌, []};
ghost use Rattle.protocol.specs.Reading.{read_rule};
ghost use Rattle.protocol.specs.States.{placing};
ghost use Rattle.rack.specs.Stations.{station_state, idle_first};

use crate::station::session::take_idle;
use crate::station::{Held, Station};
use placements::{Homes, Placement};
use protocol::answers::Read;
use values::fault::Fault;
use values::kind::ValueKind;

impl Station {
    /// A local read, with the session that is at hand.
    pub fn read<V: ValueKind + Drop, P: Homes>(
        &mut self,
        placement: &P,
        r: u16,
    ) -> Result<Read<V>, Fault>
        ensures answer { result ≡ (idle_first self.old.session (λ z. read_rule V.kind (placing P.Homes placement.now) (station_state self.old) z r) (station_state self.old) []).answer }
        ensures after { station_state self.new ≡ (idle_first self.old.session (λ z. read_rule V.kind (placing P.Homes placement.now) (station_state self.old) z r) (station_state self.old) []).after }
        ensures session { self.new.session ≡ self.old.session }
    {
        let idle = take_idle(&mut self.session)?;
        let (idle, answer) = self.site.read::<V, P>(
            placement,
            &self.copies,
            &self.updates,
            &self.fetches,
            idle,
            r,
        );
        self.session = Some(Held::Resting(idle));
        answer
    }
}
