// Waiting fetches.
ghost use Rattle.std.specs.Prelude.{◌≡◌, ◌≤◌};
ghost use Rattle.protocol.specs.Words.{fetch_ok, every_item, no_item};
ghost use Rattle.tables.specs.Judging.{numbered, asked_by};

use crate::numbers::in_range;
use clocks::seat::SiteCount;
use waiting::items::WaitingFetch;

/// Does a fetch hold no number out of range, in a rack of n sites and so many registers?
pub fn fetch_ok(fetch: &WaitingFetch, n: SiteCount, registers: u16) -> bool
    ensures { result ≡ fetch_ok (numbered 0 n.number registers) fetch.now }
{
    fetch.reader < n.number
        && fetch.register < registers
        && in_range(fetch.number)
        && fetch.column.within(n)
}

/// The same for each of the fetches.
pub fn fetches_ok(fetches: &[WaitingFetch], n: SiteCount, registers: u16) -> bool
    ensures { result ≡ every_item (fetch_ok (numbered 0 n.number registers)) fetches.now }
{
    fetches.iter().all(|fetch| fetch_ok(fetch, n, registers))
}

/// Is this the fetch of the reader that has this number?
pub fn asked_by(fetch: &WaitingFetch, reader: u8, number: u32) -> bool
    ensures { result ≡ asked_by reader number fetch.now }
{
    fetch.reader == reader && fetch.number == number
}

/// Is none of the fetches the one that this reader asked for by this number?
pub fn none_asked_by(fetches: &[WaitingFetch], reader: u8, number: u32) -> bool
    ensures { result ≡ no_item (asked_by reader number) fetches.now }
{
    fetches.iter().all(|fetch| !asked_by(fetch, reader, number))
}
