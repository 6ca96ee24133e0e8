// Frames of 2, 5 and 8 sites with each value kind: they read back, and a byte more or less is refused at bit 8.
use crate::checks::{check, parts};
use clocks::matrix::Matrix;
use clocks::row::Row;
use frames::fetch::{read_fetch, write_fetch};
use frames::message::{Fetch, Reply, Update};
use frames::reply::{read_reply, write_reply};
use frames::update::{read_update, write_update};
use std::test::Fail;
use values::block::Block;
use values::coefficient::Coefficient;
use values::fault::Fault;
use values::kind::ValueKind;
use values::mode::{Hertz, Mode};

const LENGTH: (u8, u8, u32) = (17, 2, 8);

// A message of one of the three kinds. Writing fails for more than eight sites too.
trait Message: Sized {
    fn write(&self, place: &mut [u8]) -> Result<usize, Fail>;

    fn read(bytes: &[u8]) -> Result<Self, Fault>;
}

impl<V: ValueKind + Drop> Message for Update<V> {
    fn write(&self, place: &mut [u8]) -> Result<usize, Fail> {
        check(self.sites <= 8)?;
        Ok(write_update(self, place)?)
    }

    fn read(bytes: &[u8]) -> Result<Update<V>, Fault> {
        read_update(bytes)
    }
}

impl Message for Fetch {
    fn write(&self, place: &mut [u8]) -> Result<usize, Fail> {
        check(self.sites <= 8)?;
        Ok(write_fetch(self, place)?)
    }

    fn read(bytes: &[u8]) -> Result<Fetch, Fault> {
        read_fetch(bytes)
    }
}

impl<V: ValueKind + Drop> Message for Reply<V> {
    fn write(&self, place: &mut [u8]) -> Result<usize, Fail> {
        check(self.sites <= 8)?;
        Ok(write_reply(self, place)?)
    }

    fn read(bytes: &[u8]) -> Result<Reply<V>, Fault> {
        read_reply(bytes)
    }
}

// The message as it comes back from its frame, which it is written as again.
fn trip<M: Message + Drop>(message: &M) -> Result<M, Fail> {
    let mut place = [0xee; 256];
    let size = message.write(&mut place)?;
    check(1 < size && size < 256)?;
    check(place[size] == 0xee)?;
    let mut again = [0xee; 256];
    let back = M::read(&place[0..size])?;
    check(back.write(&mut again)? == size)?;
    check(again == place)?;
    check(M::read(&place[0..size - 1]).err().map(parts) == Some(LENGTH))?;
    check(M::read(&place[0..size + 1]).err().map(parts) == Some(LENGTH))?;
    Ok(back)
}

// A matrix in which every count differs from the others.
fn matrix() -> Matrix {
    let mut counts = [0; 64];
    for (j, count) in counts.iter_mut().enumerate() {
        *count = 16_777_215 - j as u32;
    }
    Matrix { counts }
}

fn update<V>(n: u8, value: V) -> Update<V> {
    Update {
        sites: n,
        sender: n / 2,
        register: 255,
        number: 1,
        matrix: matrix(),
        value,
    }
}

fn fetch(n: u8) -> Fetch {
    let column = Row {
        counts: [1, 2, 3, 4, 5, 6, 7, 8],
    };
    Fetch {
        sites: n,
        reader: 0,
        home: n / 2,
        register: 128,
        number: 16_777_215,
        column,
    }
}

fn reply<V>(n: u8, label: Option<(u8, u32)>, value: V) -> Reply<V> {
    Reply {
        sites: n,
        home: n / 2,
        reader: 0,
        register: 1,
        number: 7,
        label,
        matrix: matrix(),
        value,
    }
}

const COEFFICIENT: i32 = -2;

fn block() -> Block {
    Block {
        first: -1,
        second: 2,
        third: -3,
        fourth: 4,
        fifth: -5,
        sixth: 6,
        seventh: -7,
        eighth: i16::MIN,
    }
}

fn mode() -> Mode {
    Mode::Notch(Hertz { number: 20_000 })
}

fn reply_trip<V: ValueKind + Drop>(n: u8, label: Option<(u8, u32)>, value: V) -> Result<(), Fail> {
    let back = trip(&reply(n, label, value))?;
    check(back.label == label)?;
    Ok(())
}

#[test]
fn updates() -> Result<(), Fail> {
    for n in [2, 5, 8] {
        trip(&update(n, Coefficient { value: COEFFICIENT }))?;
        trip(&update(n, block()))?;
        trip(&update(n, mode()))?;
    }
    Ok(())
}

#[test]
fn fetches() -> Result<(), Fail> {
    for n in [2, 5, 8] {
        trip(&fetch(n))?;
    }
    Ok(())
}

#[test]
fn replies() -> Result<(), Fail> {
    for n in [2, 5, 8] {
        reply_trip(n, Some((1, 16_777_215)), Coefficient { value: COEFFICIENT })?;
        reply_trip(n, None, block())?;
        reply_trip(n, Some((0, 1)), mode())?;
    }
    Ok(())
}

// What does not fit is refused with 18, and the place stays as it was.
#[test]
fn too_short(rt: HostRuntime) {
    let mut place = [0xee; 11];
    let fetch = Fetch {
        sites: 2,
        reader: 0,
        home: 1,
        register: 0,
        number: 1,
        column: Row::zero(),
    };
    assert_eq!(rt;
        write_fetch(&fetch, &mut place).map_err(parts),
        Err((18, 3, 0))
    );
    assert_eq!(rt; place, [0xee; 11]);
}
