// Updates as frames: kind 1.
ghost use Rattle.std.specs.Prelude.{◌≡◌, ◌≤◌, length};
ghost use Rattle.frames.specs.Layouts.{bytes_for};
ghost use Rattle.frames.specs.Messages.{update_bits, update_frame};
ghost use Rattle.frames.specs.Reading.{update_read};
ghost use Rattle.frames.specs.Writing.{write_answer, write_place};

use crate::kind::Kind;
use crate::message::Update;
use crate::parts::{
    begin, bytes_for, copy_end, counts, filled, number, opened, put_copy, site, sized, value,
};
use clocks::matrix::{Matrix, area};
use clocks::seat::SiteCount;
use fields::field::get;
use values::fault::Fault;
use values::kind::ValueKind;

// The bits of an update before its counts.
const HEAD: usize = 43;

/// The update that bytes are the frame of, or the first field that is refused.
pub fn read_update<V: ValueKind + Drop>(bytes: &[u8]) -> Result<Update<V>, Fault>
    ensures { result ≡ update_read V.kind bytes.now }
{
    let n = opened(bytes, Kind::Update)?;
    let end = copy_end::<V>(HEAD, n);
    sized(bytes, end)?;
    let sender = site(bytes, 8, n.number)?;
    let number = number(bytes, 19)?;
    let value = value(bytes, HEAD + 24 * area(n))?;
    filled(bytes, end)?;
    let counts = counts(bytes, HEAD, area(n));
    Ok(Update {
        sites: n.number,
        sender,
        register: get(bytes, 11, 8) as u16,
        number,
        matrix: Matrix { counts },
        value,
    })
}

/// How many bytes the frame of an update has.
pub fn update_size<V: ValueKind>(n: SiteCount) -> usize
    ensures { result ≡ bytes_for (update_bits V.kind n.number) }
{
    bytes_for(copy_end::<V>(HEAD, n))
}

/// Writes an update's frame into the caller's place and answers its length. What lies behind the frame stays; a place that is too short is
/// refused with 18 and stays as it was.
pub fn write_update<V: ValueKind>(message: &Update<V>, place: &mut [u8]) -> Result<usize, Fault>
    requires { message.now.sites ≤ 8 }
    ensures answer { result ≡ write_answer (bytes_for (update_bits V.kind message.now.sites)) (length place.old) }
    ensures after { place.new ≡ write_place (bytes_for (update_bits V.kind message.now.sites)) (update_frame V.kind message.now) place.old }
{
    let n = SiteCount {
        number: message.sites,
    };
    let size = update_size::<V>(n);
    let fields = [
        (4, Kind::Update as u32),
        (4, u32::from(message.sites)),
        (3, u32::from(message.sender)),
        (8, u32::from(message.register)),
        (24, message.number),
    ];
    begin(place, size, &fields)?;
    let counts = &message.matrix.counts[..area(n)];
    put_copy(place, HEAD, counts, &message.value);
    Ok(size)
}
