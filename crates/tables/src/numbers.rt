// Write and fetch numbers.
ghost use Rattle.std.specs.Prelude.{◌≡◌};
ghost use Rattle.protocol.specs.Words.{number_ok};

use clocks::count::LIMIT;

/// A number that counts from 1, up to the limit.
pub fn in_range(number: u32) -> bool
    ensures { result ≡ number_ok number }
{
    (1..=LIMIT).contains(&number)
}
