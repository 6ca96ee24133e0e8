// A list that is filled, emptied from the middle and filled again, and the order in which items get ready.
ghost use Rattle.std.specs.Prelude.{◌<◌};

use crate::items::{WaitingFetch, WaitingUpdate};
use crate::list::WaitingList;
use crate::need::Need;
use clocks::matrix::Matrix;
use clocks::row::Row;
use clocks::seat::{Seat, SiteCount};
use values::fault::Fault;
use values::kind::Bits;

// A fetch that needs one count of site 1.
fn fetch(number: u32, need: u32) -> WaitingFetch {
    WaitingFetch {
        reader: 0,
        register: 0,
        number,
        column: Row {
            counts: [0, need, 0, 0, 0, 0, 0, 0],
        },
    }
}

// A site of two.
fn seat(site: u8) -> Seat
    requires { site < 2 }
{
    Seat {
        count: SiteCount { number: 2 },
        site,
    }
}

fn applied(count: u32) -> Row {
    Row {
        counts: [0, count, 0, 0, 0, 0, 0, 0],
    }
}

// What a refusal holds: number, layer and place.
fn parts(fault: Fault) -> (u8, u8, u32) {
    (fault.number(), fault.layer(), fault.place())
}

#[test]
fn filled_and_emptied(rt: HostRuntime) {
    let mut places = [fetch(0, 0); 3];
    let mut list = WaitingList::over(&mut places, 0);
    assert_eq!(rt; list.push(fetch(1, 5)), Ok(()));
    assert_eq!(rt; list.push(fetch(2, 3)), Ok(()));
    assert_eq!(rt; list.push(fetch(3, 4)), Ok(()));
    assert_eq!(rt; list.push(fetch(4, 0)).map_err(parts), Err((12, 3, 0)));
    assert_eq!(rt; list.oldest_ready(seat(1), &applied(2)), None);
    assert_eq!(rt; list.oldest_ready(seat(1), &applied(4)), Some(1));
    assert!(rt; list.count() == 3);
    assert_eq!(rt; list.take(1).number, 2);
    assert_eq!(rt; list.oldest_ready(seat(1), &applied(4)), Some(1));
    assert_eq!(rt; list.push(fetch(5, 0)), Ok(()));
    assert_eq!(rt; list.oldest_ready(seat(1), &applied(0)), Some(2));
    assert!(rt; list.count() == 3);
    assert_eq!(rt; list.take(0).number, 1);
    assert!(rt; list.count() == 2);
    assert_eq!(rt; list.take(0).number, 3);
    assert!(rt; list.count() == 1);
    assert_eq!(rt; list.take(0).number, 5);
    assert_eq!(rt; list.count(), 0);
}

#[test]
fn needs(rt: HostRuntime) {
    let mut matrix = Matrix::zero();
    matrix.counts[1] = 3;
    matrix.counts[3] = 2;
    let update = WaitingUpdate {
        sender: 0,
        register: 0,
        number: 1,
        matrix,
        bits: Bits { bytes: [0; 32] },
    };
    assert_eq!(rt; update.need(seat(1)).counts, [2, 2, 0, 0, 0, 0, 0, 0]);
    assert_eq!(rt; update.need(seat(0)).counts, [0; 8]);
    assert_eq!(rt; fetch(1, 7).need(seat(0)).counts, [0, 7, 0, 0, 0, 0, 0, 0]);
}
