// What a site keeps for itself. Nobody outside can set these numbers, so no call has to judge them; the tables are lent on every call.
ghost use Rattle.std.specs.Prelude.{◌≡◌, ◌*◌, ◌<◌, ◌≤◌, true};
ghost use Rattle.clocks.specs.Counts.{limit, within};

use clocks::matrix::Matrix;
use clocks::row::Row;
use clocks::seat::Seat;

mod abandoning;
mod applying;
mod checks;
mod fetching;
mod opening;
mod reading;
mod receiving;
mod replying;
mod serving;
mod writing;

/// `sent`, in row k and column l, counts the writes of site k bound for l that are causally past here; `applied` counts the writes of each site that
/// were applied here. `out` is the fetch that is out, if any: its register and its home. `updates_waiting` and `fetches_waiting` say how many of the
/// places of the two lent lists are in use.
// Stays: answer, state and place are a clause each of every call, as each is a fact of its own.
// Stays: the three tables travel beside the site, not in one struct, since each call borrows for writing only those that it changes.
#[derive(Drop)]
pub struct Site {
    seat: Seat,
    registers: u16,
    update_places: usize,
    fetch_places: usize,
    sent: Matrix,
    applied: Row,
    written: u32,
    fetched: u32,
    out: Option<(u16, u8)>,
    // Stays: the lists are lent anew on every call, so how many of their places are in use is a number of the site.
    updates_waiting: usize,
    fetches_waiting: usize,
    ghost inside: { (2 ≤ seat.count.number) × (registers ≤ 256) },
    ghost updates_fit: { (updates_waiting ≤ update_places) × (update_places ≤ 64) },
    ghost fetches_fit: { (fetches_waiting ≤ fetch_places) × (fetch_places ≤ 16) },
    ghost numbers_within: { (written ≤ limit) × (fetched ≤ limit) },
    ghost sent_within: { within (seat.count.number * seat.count.number) sent.counts ≡ true },
    ghost applied_within: { within seat.count.number applied.counts ≡ true },
}
