// Waiting updates.
ghost use Rattle.std.specs.Prelude.{◌≡◌, ◌<◌, ◌≤◌};
ghost use Rattle.protocol.specs.Words.{update_ok, every_item, no_item};
ghost use Rattle.tables.specs.Judging.{numbered, alike as alike_to};

use crate::bits::sound;
use crate::numbers::in_range;
use clocks::seat::Seat;
use values::kind::ValueKind;
use waiting::items::WaitingUpdate;

/// Does an update hold no number out of range, at this seat of a rack of so many registers? Its sender must count it for this site.
pub fn update_ok<V: ValueKind + Drop>(update: &WaitingUpdate, seat: Seat, registers: u16) -> bool
    ensures { result ≡ update_ok V.kind (numbered seat.site seat.count.number registers) update.now }
{
    update.sender < seat.count.number
        && update.register < registers
        && in_range(update.number)
        && update.matrix.within(seat.count)
        && sound::<V>(&update.bits)
        && 0 < update.matrix.entry(seat.count, update.sender, seat.site)
}

/// The same for each of the updates.
pub fn updates_ok<V: ValueKind + Drop>(
    updates: &[WaitingUpdate],
    seat: Seat,
    registers: u16,
) -> bool
    ensures { result ≡ every_item (update_ok V.kind (numbered seat.site seat.count.number registers)) updates.now }
{
    updates
        .iter()
        .all(|update| update_ok::<V>(update, seat, registers))
}

/// Is this the update of the sender that has this count for the site?
pub fn alike(update: &WaitingUpdate, seat: Seat, sender: u8, count_here: u32) -> bool
    requires { sender < seat.count.number }
    ensures { result ≡ alike_to seat.count.number seat.site sender count_here update.now }
{
    update.sender == sender
        && update.matrix.entry(seat.count, update.sender, seat.site) == count_here
}

/// Is none of the updates such a one?
pub fn none_alike(updates: &[WaitingUpdate], seat: Seat, sender: u8, count_here: u32) -> bool
    requires { sender < seat.count.number }
    ensures { result ≡ no_item (alike_to seat.count.number seat.site sender count_here) updates.now }
{
    updates
        .iter()
        .all(|update| !alike(update, seat, sender, count_here))
}
