// Reading what a site receives.
ghost use Rattle.std.specs.Prelude.{◌≡◌};
ghost use Rattle.frames.specs.Reading.{incoming_read};

use crate::fetch::read_fetch;
use crate::incoming::Incoming;
use crate::kind::Kind;
use crate::update::read_update;
use fields::field::get;
use values::fault::Fault;
use values::kind::ValueKind;

/// The update or the fetch that bytes are the frame of, or the first field that is refused. Any other kind is refused at bit 0.
pub fn read_incoming<V: ValueKind + Drop>(bytes: &[u8]) -> Result<Incoming<V>, Fault>
    ensures { result ≡ incoming_read V.kind bytes.now }
{
    if !bytes.is_empty() && get(bytes, 0, 4) == Kind::Fetch as u32 {
        Ok(Incoming::OfFetch(read_fetch(bytes)?))
    } else {
        Ok(Incoming::OfUpdate(read_update(bytes)?))
    }
}
