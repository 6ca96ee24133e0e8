// The session that is at hand at a station, taken for a call.
// Stays: two functions, since case and refusal differ in each, and a closure for both would say them once more.
ghost use Rattle.std.specs.Prelude.{◌≡◌, OnOk, OnErr};
ghost use Rattle.rack.specs.Stations.{resting, fetching};

use crate::station::Held;
use sites::session::{Awaiting, Idle};
use values::fault::{Fault, Refusal};

// Takes an idle session; refused with 4, and left there, where another is at hand.
pub(crate) fn take_idle(session: &mut Option<Held>) -> Result<Idle, Fault>
    ensures answer { result ≡ resting session.old }
    ensures taken { OnOk result (session.new ≡ None) }
    ensures same { OnErr result (session.new ≡ session.old) }
{
    match session.take() {
        Some(Held::Resting(idle)) => Ok(idle),
        other => {
            *session = other;
            Err(Fault::of_site(Refusal::FetchIsOut))
        }
    }
}

// Takes an awaiting session; refused with 7, and left there, where another is at hand.
pub(crate) fn take_awaiting(session: &mut Option<Held>) -> Result<Awaiting, Fault>
    ensures answer { result ≡ fetching session.old }
    ensures taken { OnOk result (session.new ≡ None) }
    ensures same { OnErr result (session.new ≡ session.old) }
{
    match session.take() {
        Some(Held::Fetching(awaiting)) => Ok(awaiting),
        other => {
            *session = other;
            Err(Fault::of_site(Refusal::NoFetchIsOut))
        }
    }
}
