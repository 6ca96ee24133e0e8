// Opening a site.
ghost use Rattle.std.specs.Prelude.{◌≡◌};
ghost use Rattle.protocol.specs.Opening.{open_rule};
ghost use Rattle.protocol.specs.States.{placing};
ghost use Rattle.sites.specs.Opened.{Opens};
ghost use Rattle.sites.specs.States.{lent};

use crate::session::Idle;
use crate::site::Site;
use clocks::matrix::Matrix;
use clocks::row::Row;
use clocks::seat::{Seat, SiteCount};
use placements::{Homes, Placement};
use tables::copies::clear;
use values::fault::{Fault, Refusal};
use values::kind::ValueKind;
use waiting::items::{Replica, WaitingFetch, WaitingUpdate};

// The most updates and fetches that may wait.
const UPDATE_PLACES: usize = 64;

const FETCH_PLACES: usize = 16;

impl Site {
    /// Opens a site over the caller's tables: all counts 0, the lists empty, each copy the start value without label. Answers the site and an idle session.
    pub fn open<V: ValueKind + Drop, P: Homes>(
        placement: &P,
        site: u8,
        update_places: usize,
        fetch_places: usize,
        copies: &mut [Replica],
        updates: &[WaitingUpdate],
        fetches: &[WaitingFetch],
    ) -> Result<(Site, Idle), Fault>
        ensures { Opens (open_rule V.kind (placing P.Homes placement.now) site update_places fetch_places (lent copies.old updates.now fetches.now)) result copies.new updates.now fetches.now }
    {
        let sites = placement.sites();
        let registers = placement.registers();
        // Stays: by comparisons; with `contains` the proof closes only close to the limit of the search.
        if site >= sites
            || update_places < 1
            || update_places > UPDATE_PLACES
            || fetch_places < 1
            || fetch_places > FETCH_PLACES
        {
            return Err(Fault::of_site(Refusal::OutOfRange));
        }
        if copies.len() != registers as usize
            || updates.len() != update_places
            || fetches.len() != fetch_places
        {
            return Err(Fault::of_site(Refusal::OtherTables));
        }
        clear::<V>(copies);
        let opened = Site {
            seat: Seat {
                count: SiteCount { number: sites },
                site,
            },
            registers,
            update_places,
            fetch_places,
            sent: Matrix::zero(),
            applied: Row::zero(),
            written: 0,
            fetched: 0,
            out: None,
            updates_waiting: 0,
            fetches_waiting: 0,
        };
        Ok((opened, Idle { site, fetched: 0 }))
    }
}
