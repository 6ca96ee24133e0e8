// Every refusal of every kind, at its bit. A frame that is accepted has one field overwritten, and is refused there.
ghost use Rattle.std.specs.Prelude.{◌≤◌};

use crate::checks::{check, parts};
use clocks::matrix::Matrix;
use clocks::row::Row;
use fields::field::put;
use frames::fetch::{read_fetch, write_fetch};
use frames::incoming::Incoming;
use frames::incoming::reading::read_incoming;
use frames::message::{Fetch, Reply, Update};
use frames::reply::{read_reply, write_reply};
use frames::update::{read_update, write_update};
use std::test::Fail;
use values::fault::Fault;
use values::mode::Mode;

// The field of the frame that is overwritten: its first bit, its width, what it gets, and where the frame is then refused, if at all.
#[derive(Clone, Copy)]
struct Case {
    at: usize,
    width: u32,
    value: u32,
    place: Option<u32>,
}

const fn put_in(at: usize, width: u32, value: u32, place: Option<u32>) -> Case {
    Case {
        at,
        width,
        value,
        place,
    }
}

// A frame's field that is refused: number, layer and place.
fn refused(place: Option<u32>) -> Option<(u8, u8, u32)> {
    place.map(|place| (17, 2, place))
}

// Each case on a frame of its own: what it is read as, or refused.
fn run<const N: usize, M: Drop, F: Fn(&[u8]) -> Result<M, Fault>>(
    frame: [u8; N],
    cases: &[Case],
    read: F,
) -> Result<(), Fail>
    requires small { N ≤ 24 }
    requires callable { F.IsAlwaysCallable read }
{
    for c in cases {
        let mut bytes = frame;
        let place = &mut bytes[..];
        let bits = 8 * place.len();
        check(c.width <= 32 && c.at <= bits && c.width as usize <= bits - c.at)?;
        put(place, c.at, c.width, c.value);
        check(read(place).err().map(parts) == refused(c.place))?;
    }
    Ok(())
}

// At two sites an update of a mode has 43 + 96 + 18 = 157 bits, 20 bytes.
fn update_frame() -> [u8; 20] {
    let mut place = [0; 20];
    let message = Update {
        sites: 2,
        sender: 0,
        register: 5,
        number: 1,
        matrix: Matrix::zero(),
        value: Mode::Off,
    };
    let _ = write_update(&message, &mut place);
    place
}

#[test]
fn of_updates(rt: HostRuntime) -> Result<(), Fail> {
    let cases = [
        put_in(0, 4, 1, None),
        put_in(0, 4, 2, Some(0)),
        put_in(0, 4, 3, Some(0)),
        put_in(0, 4, 0, Some(0)),
        put_in(4, 4, 1, Some(4)),
        put_in(4, 4, 9, Some(4)),
        put_in(4, 4, 3, Some(8)),
        put_in(8, 3, 1, None),
        put_in(8, 3, 2, Some(8)),
        put_in(11, 8, 255, None),
        put_in(19, 24, 0, Some(19)),
        put_in(43, 24, 16_777_215, None),
        put_in(157, 3, 1, Some(157)),
        put_in(157, 3, 4, Some(157)),
    ];
    run(update_frame(), &cases, read_update::<Mode>)?;
    assert_eq!(rt; read_update::<Mode>(&[]).err().map(parts), refused(Some(0)));
    Ok(())
}

// The value's refusal has number 16 and layer 1, and its place counts from the frame's start: the value begins at bit 139.
#[test]
fn of_values(rt: HostRuntime) {
    let mut bytes = update_frame();
    put(&mut bytes, 139, 2, 3);
    assert_eq!(rt;
        read_update::<Mode>(&bytes).err().map(parts),
        Some((16, 1, 139))
    );
    put(&mut bytes, 139, 2, 2);
    assert_eq!(rt;
        read_update::<Mode>(&bytes).err().map(parts),
        Some((16, 1, 141))
    );
    put(&mut bytes, 141, 16, 20_001);
    assert_eq!(rt;
        read_update::<Mode>(&bytes).err().map(parts),
        Some((16, 1, 141))
    );
    put(&mut bytes, 141, 16, 20_000);
    assert_eq!(rt; read_update::<Mode>(&bytes).err().map(parts), None);
}

// At two sites a fetch has 46 + 48 = 94 bits, 12 bytes.
fn fetch_frame() -> [u8; 12] {
    let mut place = [0; 12];
    let message = Fetch {
        sites: 2,
        reader: 0,
        home: 1,
        register: 5,
        number: 1,
        column: Row::zero(),
    };
    let _ = write_fetch(&message, &mut place);
    place
}

#[test]
fn of_fetches(rt: HostRuntime) -> Result<(), Fail> {
    let cases = [
        put_in(0, 4, 2, None),
        put_in(0, 4, 1, Some(0)),
        put_in(0, 4, 3, Some(0)),
        put_in(4, 4, 0, Some(4)),
        put_in(4, 4, 9, Some(4)),
        put_in(4, 4, 8, Some(8)),
        put_in(8, 3, 2, Some(8)),
        put_in(11, 3, 2, Some(11)),
        put_in(22, 24, 0, Some(22)),
        put_in(94, 2, 1, Some(94)),
    ];
    run(fetch_frame(), &cases, read_fetch)?;
    assert_eq!(rt; read_fetch(&[]).err().map(parts), refused(Some(0)));
    Ok(())
}

// At two sites a reply of a mode has 74 + 96 + 18 = 188 bits, 24 bytes.
fn reply_frame(label: Option<(u8, u32)>) -> [u8; 24] {
    let mut place = [0; 24];
    let message = Reply {
        sites: 2,
        home: 1,
        reader: 0,
        register: 5,
        number: 1,
        label,
        matrix: Matrix::zero(),
        value: Mode::Off,
    };
    let _ = write_reply(&message, &mut place);
    place
}

#[test]
fn of_replies(rt: HostRuntime) -> Result<(), Fail> {
    let cases = [
        put_in(0, 4, 1, Some(0)),
        put_in(4, 4, 9, Some(4)),
        put_in(4, 4, 3, Some(8)),
        put_in(8, 3, 2, Some(8)),
        put_in(11, 3, 2, Some(11)),
        put_in(22, 24, 0, Some(22)),
        put_in(46, 1, 0, Some(47)),
        put_in(47, 3, 2, Some(47)),
        put_in(50, 24, 0, Some(50)),
        put_in(188, 4, 1, Some(188)),
    ];
    run(reply_frame(Some((1, 9))), &cases, read_reply::<Mode>)?;
    assert_eq!(rt; read_reply::<Mode>(&[]).err().map(parts), refused(Some(0)));
    Ok(())
}

#[test]
fn of_unwritten_replies() -> Result<(), Fail> {
    let cases = [
        put_in(46, 1, 0, None),
        put_in(46, 1, 1, Some(50)),
        put_in(47, 3, 1, Some(47)),
        put_in(47, 3, 2, Some(47)),
        put_in(50, 24, 1, Some(50)),
    ];
    run(reply_frame(None), &cases, read_reply::<Mode>)
}

fn is_fetch(bytes: &[u8]) -> Result<bool, Fault> {
    match read_incoming::<Mode>(bytes)? {
        Incoming::OfFetch(_) => Ok(true),
        Incoming::OfUpdate(_) => Ok(false),
    }
}

#[test]
fn of_what_comes_in(rt: HostRuntime) {
    assert_eq!(rt; is_fetch(&fetch_frame()), Ok(true));
    assert_eq!(rt; is_fetch(&update_frame()), Ok(false));
    assert_eq!(rt;
        is_fetch(&reply_frame(None)).map_err(parts),
        Err((17, 2, 0))
    );
    assert_eq!(rt; is_fetch(&[]).map_err(parts), Err((17, 2, 0)));
}
