// What lies in a site's tables. Items are plain and Copy, and a value lies in them as plain bits, so that a table can hold anything that
// its owner left there; a site judges what it finds.
ghost use Rattle.std.specs.Prelude.{◌≡◌, Some};
ghost use Rattle.waiting.specs.Needs.{update_need, fetch_need};

use crate::need::Need;
use clocks::matrix::Matrix;
use clocks::row::Row;
use clocks::seat::Seat;
use values::kind::Bits;

/// An update that was received and not applied yet: the write's label (sender and number), register, matrix and value.
#[derive(Clone, Copy)]
pub struct WaitingUpdate {
    pub sender: u8,
    pub register: u16,
    pub number: u32,
    pub matrix: Matrix,
    pub bits: Bits,
}

/// A fetch that was received and not served yet, with the reader's column of what the reader knows to be bound for this site.
#[derive(Clone, Copy)]
pub struct WaitingFetch {
    pub reader: u8,
    pub register: u16,
    pub number: u32,
    pub column: Row,
}

/// A site's copy of a register: the value and matrix of a write, and its label; none where the register was never written.
#[derive(Clone, Copy)]
pub struct Replica {
    pub bits: Bits,
    pub matrix: Matrix,
    pub label: Option<(u8, u32)>,
}

// The copy of its register that an update leaves once it is applied.
impl From<WaitingUpdate> for Replica {
    ghost from_gives = { λ u r. r ≡ record { bits = u.bits; matrix = u.matrix; label = Some (u.sender, u.number) } };

    fn from(update: WaitingUpdate) -> Replica {
        Replica {
            bits: update.bits,
            matrix: update.matrix,
            label: Some((update.sender, update.number)),
        }
    }
}

// An update needs what its sender knew to be bound for this site, less the write itself.
impl Need for WaitingUpdate {
    ghost needed = { update_need };

    fn need(&self, seat: Seat) -> Row {
        self.matrix.column(seat).less_one(self.sender)
    }
}

// A fetch needs what its reader knows to be bound for this site.
impl Need for WaitingFetch {
    ghost needed = { fetch_need };

    fn need(&self, _seat: Seat) -> Row {
        self.column
    }
}
