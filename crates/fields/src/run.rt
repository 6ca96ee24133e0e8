// A run of bits of any length.
ghost use Rattle.std.specs.Prelude.{◌≡◌, ◌+◌, ◌*◌, ◌^◌, ◌<◌, ◌≤◌, length};
ghost use Rattle.fields.specs.Bits.{bits_of};
ghost use Rattle.fields.specs.Fields.{run as run_of, splice};

use crate::field::{get, put};

/// Copies `width` bits, those of `from` from `start` on, over those of `place` from `at` on.
#[tactic(auto, using(crate::proofs::Turns::copy_next, crate::proofs::SpliceLaws::splice_none))]
pub fn copy(place: &mut [u8], at: usize, from: &[u8], start: usize, width: usize)
    requires no_wrap { (at + width < 2 ^ 64) × (start + width < 2 ^ 64) }
    requires in_place { (at + width ≤ 8 * length place.old) × (start + width ≤ 8 * length from.now) }
    ensures { bits_of place.new ≡ splice (bits_of place.old) at (run_of (bits_of from.now) start width) }
{
    for done in (0..width).step_by(32) {
        let k = (width - done).min(32);
        let x = get(from, start + done, k as u32);
        put(place, at + done, k as u32, x);
    }
}
