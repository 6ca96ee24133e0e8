// Fetches as frames: kind 2.
ghost use Rattle.std.specs.Prelude.{◌≡◌, ◌≤◌, length};
ghost use Rattle.frames.specs.Layouts.{bytes_for};
ghost use Rattle.frames.specs.Messages.{fetch_bits, fetch_frame};
ghost use Rattle.frames.specs.Reading.{fetch_read};
ghost use Rattle.frames.specs.Writing.{write_answer, write_place};

use crate::kind::Kind;
use crate::message::Fetch;
use crate::parts::{begin, bytes_for, counts, filled, number, opened, put_column, site, sized};
use clocks::row::Row;
use clocks::seat::SiteCount;
use fields::field::get;
use values::fault::Fault;

// The bits of a fetch before its counts.
const HEAD: usize = 46;

/// The fetch that bytes are the frame of, or the first field that is refused.
pub fn read_fetch(bytes: &[u8]) -> Result<Fetch, Fault>
    ensures { result ≡ fetch_read bytes.now }
{
    let n = opened(bytes, Kind::Fetch)?;
    let end = HEAD + 24 * usize::from(n.number);
    sized(bytes, end)?;
    let reader = site(bytes, 8, n.number)?;
    let home = site(bytes, 11, n.number)?;
    let number = number(bytes, 22)?;
    filled(bytes, end)?;
    let counts = counts(bytes, HEAD, usize::from(n.number));
    Ok(Fetch {
        sites: n.number,
        reader,
        home,
        register: get(bytes, 14, 8) as u16,
        number,
        column: Row { counts },
    })
}

/// How many bytes the frame of a fetch has.
pub fn fetch_size(n: SiteCount) -> usize
    ensures { result ≡ bytes_for (fetch_bits n.number) }
{
    bytes_for(HEAD + 24 * usize::from(n.number))
}

/// Writes a fetch's frame into the caller's place and answers its length. What lies behind the frame stays; a place that is too short is
/// refused with 18 and stays as it was.
pub fn write_fetch(message: &Fetch, place: &mut [u8]) -> Result<usize, Fault>
    requires { message.now.sites ≤ 8 }
    ensures answer { result ≡ write_answer (bytes_for (fetch_bits message.now.sites)) (length place.old) }
    ensures after { place.new ≡ write_place (bytes_for (fetch_bits message.now.sites)) (fetch_frame message.now) place.old }
{
    let n = SiteCount {
        number: message.sites,
    };
    let size = fetch_size(n);
    let fields = [
        (4, Kind::Fetch as u32),
        (4, u32::from(message.sites)),
        (3, u32::from(message.reader)),
        (3, u32::from(message.home)),
        (8, u32::from(message.register)),
        (24, message.number),
    ];
    begin(place, size, &fields)?;
    let counts = &message.column.counts[..usize::from(message.sites)];
    put_column(place, HEAD, counts);
    Ok(size)
}
