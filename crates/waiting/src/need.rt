// What a waiting item waits for.
ghost use Rattle.std.specs.Prelude.{◌≡◌, ℕ, ◌<◌, ◌≤◌, List};

use clocks::row::Row;
use clocks::seat::Seat;

/// An item that waits until enough writes were applied at its site. `needed x n i` are n counts: how many writes of each of the n
/// sites must have been applied at site i.
pub trait Need {
    ghost needed: { Self → ℕ → ℕ → List ℕ };

    fn need(&self, seat: Seat) -> Row
        ensures { result.counts ≡ needed self.now seat.count.number seat.site };
}
