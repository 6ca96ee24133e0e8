// What a count may be: a number of writes that three bytes hold.
ghost use Rattle.clocks.specs.Counts.{limit};
ghost use Rattle.std.specs.List.{list_all};
ghost use Rattle.std.specs.Prelude.{◌≡◌, nat_le, nat_lt};

/// The largest count.
pub const LIMIT: u32 = 16_777_215;

/// May a clock hold this count?
pub fn allowed(count: u32) -> bool
    ensures { result ≡ nat_le count limit }
{
    count <= LIMIT
}

// May a clock hold each of these counts?
pub(crate) fn all_allowed(counts: &[u32]) -> bool
    ensures { result ≡ list_all (λ count. nat_le count limit) counts.now }
{
    counts.iter().all(|&count| allowed(count))
}

/// Can one more write be counted?
pub fn can_rise(count: u32) -> bool
    ensures { result ≡ nat_lt count limit }
{
    count < LIMIT
}
