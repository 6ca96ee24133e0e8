// Replies as frames: kind 3.
ghost use Rattle.std.specs.Prelude.{◌≡◌, ◌*◌, ◌≤◌, length};
ghost use Rattle.fields.specs.Bits.{bits_of};
ghost use Rattle.frames.specs.Layouts.{bytes_for};
ghost use Rattle.frames.specs.Messages.{reply_bits, reply_frame, written, writer, write_number};
ghost use Rattle.frames.specs.Reading.{reply_read, label_read};
ghost use Rattle.frames.specs.Writing.{write_answer, write_place};

use crate::kind::Kind;
use crate::message::Reply;
use crate::parts::{
    begin, bytes_for, copy_end, counts, filled, number, opened, put_copy, site, sized, value,
};
use clocks::matrix::{Matrix, area};
use clocks::seat::SiteCount;
use fields::field::get;
use values::fault::Fault;
use values::kind::ValueKind;

// The bits of a reply before its counts.
const HEAD: usize = 74;

// The label of a reply's copy: none where it is unwritten, and then writer and write number must be 0.
fn label(bytes: &[u8]) -> Result<Option<(u8, u32)>, Fault>
    requires { 74 ≤ 8 * length bytes.now }
    ensures { result ≡ label_read (bits_of bytes.now) }
{
    let written = get(bytes, 46, 1) == 1;
    let writer = get(bytes, 47, 3);
    let number = get(bytes, 50, 24);
    match (written, writer, number) {
        (false, 0, 0) => Ok(None),
        (true, _, 1..) => Ok(Some((writer as u8, number))),
        (false, 1.., _) => Err(Fault::of_frame(47)),
        _ => Err(Fault::of_frame(50)),
    }
}

/// The reply that bytes are the frame of, or the first field that is refused. The writer is a site number too, written or not.
pub fn read_reply<V: ValueKind + Drop>(bytes: &[u8]) -> Result<Reply<V>, Fault>
    ensures { result ≡ reply_read V.kind bytes.now }
{
    let n = opened(bytes, Kind::Reply)?;
    let end = copy_end::<V>(HEAD, n);
    sized(bytes, end)?;
    let home = site(bytes, 8, n.number)?;
    let reader = site(bytes, 11, n.number)?;
    site(bytes, 47, n.number)?;
    let number = number(bytes, 22)?;
    let label = label(bytes)?;
    let value = value(bytes, HEAD + 24 * area(n))?;
    filled(bytes, end)?;
    let counts = counts(bytes, HEAD, area(n));
    Ok(Reply {
        sites: n.number,
        home,
        reader,
        register: get(bytes, 14, 8) as u16,
        number,
        label,
        matrix: Matrix { counts },
        value,
    })
}

/// How many bytes the frame of a reply has.
pub fn reply_size<V: ValueKind>(n: SiteCount) -> usize
    ensures { result ≡ bytes_for (reply_bits V.kind n.number) }
{
    bytes_for(copy_end::<V>(HEAD, n))
}

// The numbers that a label travels as: written, writer and write number, all 0 where there is none.
fn label_numbers(label: Option<(u8, u32)>) -> (u32, u32, u32)
    ensures { result ≡ (written label, writer label, write_number label) }
{
    label.map_or((0, 0, 0), |(writer, number)| (1, u32::from(writer), number))
}

/// Writes a reply's frame into the caller's place and answers its length. What lies behind the frame stays; a place that is too short is
/// refused with 18 and stays as it was.
pub fn write_reply<V: ValueKind>(message: &Reply<V>, place: &mut [u8]) -> Result<usize, Fault>
    requires { message.now.sites ≤ 8 }
    ensures answer { result ≡ write_answer (bytes_for (reply_bits V.kind message.now.sites)) (length place.old) }
    ensures after { place.new ≡ write_place (bytes_for (reply_bits V.kind message.now.sites)) (reply_frame V.kind message.now) place.old }
{
    let n = SiteCount {
        number: message.sites,
    };
    let size = reply_size::<V>(n);
    let (written, writer, write_number) = label_numbers(message.label);
    let fields = [
        (4, Kind::Reply as u32),
        (4, u32::from(message.sites)),
        (3, u32::from(message.home)),
        (3, u32::from(message.reader)),
        (8, u32::from(message.register)),
        (24, message.number),
        (1, written),
        (3, writer),
        (24, write_number),
    ];
    begin(place, size, &fields)?;
    let counts = &message.matrix.counts[..area(n)];
    put_copy(place, HEAD, counts, &message.value);
    Ok(size)
}
