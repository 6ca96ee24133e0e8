// Copies of registers.
ghost use Rattle.std.specs.Prelude.{◌≡◌, ◌≤◌, length, replicate};
ghost use Rattle.protocol.specs.Opening.{unwritten};
ghost use Rattle.protocol.specs.Words.{copy_ok, label_ok};
ghost use Rattle.tables.specs.Judging.{numbered};

use crate::bits::{plain, sound};
use crate::numbers::in_range;
use clocks::matrix::Matrix;
use clocks::seat::SiteCount;
use values::kind::ValueKind;
use waiting::items::Replica;

/// No label, or one with a site of the rack and a number in range.
pub fn label_ok(label: Option<(u8, u32)>, n: u8) -> bool
    ensures { result ≡ label_ok n label }
{
    label.is_none_or(|(writer, number)| writer < n && in_range(number))
}

/// Does a copy hold no number out of range, at any site of a rack of n?
pub fn copy_ok<V: ValueKind + Drop>(copy: &Replica, n: SiteCount) -> bool
    ensures { result ≡ copy_ok V.kind (numbered 0 n.number 0) copy.now }
{
    label_ok(copy.label, n.number) && copy.matrix.within(n) && sound::<V>(&copy.bits)
}

/// Every copy becomes the start value, without label and with a zero matrix.
pub fn clear<V: ValueKind + Drop>(copies: &mut [Replica])
    ensures { copies.new ≡ replicate (length copies.old) (unwritten V.kind) }
{
    let start = Replica {
        bits: plain(&V::start()),
        matrix: Matrix::zero(),
        label: None,
    };
    copies.fill(start);
}
