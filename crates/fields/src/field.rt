// One field of up to 32 bits.
ghost use Rattle.std.specs.Prelude.{◌≡◌, ◌+◌, ◌*◌, ◌%◌, ◌^◌, ◌<◌, ◌≤◌, length};
ghost use Rattle.fields.specs.Bits.{bits, num, bits_of};
ghost use Rattle.fields.specs.Fields.{run, field as field_at, splice};

use crate::bytes::{behind, byte_of, lay, number_of, part, patch, spare_of};

/// Lays the last `width` bits of a value over those from `at` on.
#[tactic(auto, using(crate::proofs::Numbers::laid))]
pub fn put(place: &mut [u8], at: usize, width: u32, value: u32)
    requires { (width ≤ 32) × ((at + width < 2 ^ 64) × (at + width ≤ 8 * length place.old)) }
    ensures { bits_of place.new ≡ splice (bits_of place.old) at (bits width value) }
{
    let end = at + width as usize;
    let bytes = &mut place[byte_of(at)..behind(end)];
    let field = part(u64::from(value), width, 0);
    let number = patch(number_of(bytes), field, width, spare_of(end));
    lay(bytes, number);
}

/// The number in the field of `width` bits from `at` on.
#[tactic(auto, using(crate::proofs::Numbers::got))]
pub fn get(bytes: &[u8], at: usize, width: u32) -> u32
    requires { (width ≤ 32) × ((at + width < 2 ^ 64) × (at + width ≤ 8 * length bytes.now)) }
    ensures value { result ≡ field_at (bits_of bytes.now) at width }
    ensures small { result < 2 ^ width }
{
    let end = at + width as usize;
    let number = number_of(&bytes[byte_of(at)..behind(end)]);
    part(number, width, spare_of(end)) as u32
}
