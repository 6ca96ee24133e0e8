// Abandoning a fetch at a station.
ghost use Rattle.std.specs.Prelude.{◌≡◌};
ghost use Rattle.protocol.specs.Replying.{abandon_rule};
ghost use Rattle.rack.specs.Stations.{station_state, awaiting_first, ended_held};

use crate::station::session::take_awaiting;
use crate::station::{Held, Station};
use values::fault::Fault;

impl Station {
    /// Forgets the fetch that is out; the session at hand rests from then on.
    pub fn abandon(&mut self) -> Result<(), Fault>
        ensures answer { result ≡ (awaiting_first self.old.session (λ z. abandon_rule (station_state self.old) z) (station_state self.old)).answer }
        ensures after { station_state self.new ≡ (awaiting_first self.old.session (λ z. abandon_rule (station_state self.old) z) (station_state self.old)).after }
        ensures session { self.new.session ≡ ended_held self.old.session result }
    {
        let awaiting = take_awaiting(&mut self.session)?;
        // Stays: each arm moves the session, which the closures of `map` and `map_err` cannot both do.
        match self.site.abandon(awaiting) {
            Ok(idle) => {
                self.session = Some(Held::Resting(idle));
                Ok(())
            }
            Err((awaiting, fault)) => {
                self.session = Some(Held::Fetching(awaiting));
                Err(fault)
            }
        }
    }
}
