// Which of several items is ready.
ghost use Rattle.std.specs.Prelude.{◌≡◌};
ghost use Rattle.clocks.specs.Rows.{nowhere_below};
ghost use Rattle.waiting.specs.Queues.{first_where};

use crate::need::Need;
use clocks::row::Row;
use clocks::seat::Seat;

/// Where the first ready item stands: one whose need is nowhere above `applied`.
pub fn first_ready<T: Need>(items: &[T], seat: Seat, applied: &Row) -> Option<usize>
    ensures { result ≡ first_where (λ x. nowhere_below seat.count.number applied.now.counts (T.Need.needed x seat.count.number seat.site)) 0 items.now }
{
    items
        .iter()
        .map(|item| item.need(seat))
        .position(|need| applied.nowhere_below(seat.count, &need))
}
