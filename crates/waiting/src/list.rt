// One waiting list for every kind of item, over places that the caller lends.
ghost use Rattle.std.specs.Prelude.{◌≤◌, length};

pub mod calls;

// Stays: places with a count beside them, since the lent places behind the items are the caller's and an item is put there later.
/// The first `count` places hold the items, the oldest first; the places behind them belong to nobody.
#[derive(Drop)]
pub struct WaitingList<'a, T> {
    places: &'a mut [T],
    count: usize,
    ghost fits: { count ≤ length places.now },
}
