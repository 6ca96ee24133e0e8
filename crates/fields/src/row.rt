// A row of counts, 24 bits each, one after the other.
ghost use Rattle.std.specs.Prelude.{◌≡◌, ◌+◌, ◌*◌, ◌^◌, ◌<◌, ◌≤◌, length, drop};
ghost use Rattle.fields.specs.Bits.{bits_of};
ghost use Rattle.fields.specs.Fields.{row as row_of, numbers, splice};

use crate::field::{get, put};

/// Lays the counts, the last 24 bits of each, over the bits from `at` on.
#[tactic(auto, unfolding(crate::specs::Fields::row), using(crate::proofs::RowLaws::put_next, crate::proofs::SpliceLaws::splice_none))]
pub fn put_row(place: &mut [u8], at: usize, row: &[u32])
    requires { (at + 24 * length row.now < 2 ^ 64) × (at + 24 * length row.now ≤ 8 * length place.old) }
    ensures { bits_of place.new ≡ splice (bits_of place.old) at (row_of 24 row.now) }
{
    for (i, count) in row.iter().enumerate() {
        put(place, at + 24 * i, 24, *count);
    }
}

/// Reads as many counts as `row` has places from the bits from `at` on.
#[tactic(auto, unfolding(crate::specs::Fields::numbers), using(crate::proofs::RowLaws::get_next))]
pub fn get_row(bytes: &[u8], at: usize, row: &mut [u32])
    requires { (at + 24 * length row.old < 2 ^ 64) × (at + 24 * length row.old ≤ 8 * length bytes.now) }
    ensures { row.new ≡ numbers 24 (length row.old) (drop at (bits_of bytes.now)) }
{
    for (i, count) in row.iter_mut().enumerate() {
        *count = get(bytes, at + 24 * i, 24);
    }
}
