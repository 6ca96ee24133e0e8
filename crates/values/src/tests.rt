// The edges of each value kind, on its bits.
use crate::block::Block;
use crate::coefficient::Coefficient;
use crate::fault::{Fault, Refusal};
use crate::kind::{Bits, ValueKind};
use crate::mode::{Channel, Hertz, Mode};
use fields::field::{get, put};

// A mode as it lies in a table, whatever the tag and the argument.
fn mode_bits(tag: u32, argument: u32) -> Bits {
    let mut bytes = [0; 32];
    put(&mut bytes, 0, 2, tag);
    put(&mut bytes, 2, 16, argument);
    Bits { bytes }
}

// What a refusal holds: number, layer and place.
fn parts(fault: Fault) -> (u8, u8, u32) {
    (fault.number(), fault.layer(), fault.place())
}

fn read_mode(tag: u32, argument: u32) -> Result<Mode, (u8, u8, u32)> {
    Mode::read(&mode_bits(tag, argument)).map_err(parts)
}

fn refused_at(place: u32) -> Result<Mode, (u8, u8, u32)> {
    Err((16, 1, place))
}

#[test]
fn coefficients(rt: HostRuntime) {
    assert_eq!(rt; Coefficient::width(), 32);
    assert_eq!(rt; Coefficient::start(), Coefficient { value: 0 });
    assert_eq!(rt;
        get(&Coefficient { value: -2 }.write().bytes, 0, 32),
        0xffff_fffe
    );
    assert_eq!(rt;
        get(&Coefficient { value: i32::MIN }.write().bytes, 0, 32),
        0x8000_0000
    );
    for value in [i32::MIN, -1, 0, 1, i32::MAX] {
        let c = Coefficient { value };
        assert_eq!(rt; Coefficient::read(&c.write()), Ok(c));
    }
}

#[test]
fn blocks(rt: HostRuntime) {
    let b = Block {
        first: i16::MIN,
        second: -1,
        third: 0,
        fourth: 1,
        fifth: i16::MAX,
        sixth: 2,
        seventh: -2,
        eighth: 256,
    };
    let bits = b.write();
    assert_eq!(rt; get(&bits.bytes, 0, 32), 0x8000_ffff);
    assert_eq!(rt; get(&bits.bytes, 32, 32), 1);
    assert_eq!(rt; get(&bits.bytes, 64, 32), 0x7fff_0002);
    assert_eq!(rt; get(&bits.bytes, 96, 32), 0xfffe_0100);
    assert_eq!(rt; get(&bits.bytes, 128, 32), 0);
    assert_eq!(rt; Block::width(), 128);
    assert_eq!(rt; Block::read(&bits), Ok(b));
    assert_eq!(rt; Block::read(&Bits { bytes: [0; 32] }), Ok(Block::start()));
}

#[test]
fn modes_read(rt: HostRuntime) {
    assert_eq!(rt; Mode::width(), 18);
    assert_eq!(rt; read_mode(0, 0), Ok(Mode::start()));
    assert_eq!(rt; read_mode(0, 1), refused_at(2));
    assert_eq!(rt; read_mode(1, 0), Ok(Mode::Bypass(Channel { number: 0 })));
    assert_eq!(rt; read_mode(1, 15), Ok(Mode::Bypass(Channel { number: 15 })));
    assert_eq!(rt; read_mode(1, 16), refused_at(2));
    assert_eq!(rt; read_mode(2, 0), refused_at(2));
    assert_eq!(rt; read_mode(2, 1), Ok(Mode::Notch(Hertz { number: 1 })));
    assert_eq!(rt;
        read_mode(2, 20_000),
        Ok(Mode::Notch(Hertz { number: 20_000 }))
    );
    assert_eq!(rt; read_mode(2, 20_001), refused_at(2));
    assert_eq!(rt; read_mode(2, 65_535), refused_at(2));
    assert_eq!(rt; read_mode(3, 0), refused_at(0));
}

#[test]
fn modes_written(rt: HostRuntime) {
    assert_eq!(rt; get(&Mode::Off.write().bytes, 0, 18), 0);
    assert_eq!(rt;
        get(&Mode::Bypass(Channel { number: 15 }).write().bytes, 0, 18),
        0x1000f
    );
    assert_eq!(rt;
        get(&Mode::Notch(Hertz { number: 20_000 }).write().bytes, 0, 18),
        0x24e20
    );
}

#[test]
fn modes_made(rt: HostRuntime) {
    let refused = Err((1, 3, 0));
    assert_eq!(rt; Mode::bypass(15), Ok(Mode::Bypass(Channel { number: 15 })));
    assert_eq!(rt; Mode::bypass(16).map_err(parts), refused);
    assert_eq!(rt; Mode::notch(0).map_err(parts), refused);
    assert_eq!(rt;
        Mode::notch(20_000),
        Ok(Mode::Notch(Hertz { number: 20_000 }))
    );
    assert_eq!(rt; Mode::notch(20_001).map_err(parts), refused);
    assert_eq!(rt; parts(Fault::of_site(Refusal::NoRoom)), (18, 3, 0));
    assert_eq!(rt; parts(Fault::of_frame(8)), (17, 2, 8));
}

// A refusal of a value that begins at bit 139 of a frame.
#[test]
fn places_counted(rt: HostRuntime) {
    assert_eq!(rt; parts(Fault::of_value(2).counted_from(139)), (16, 1, 141));
    assert_eq!(rt; parts(Fault::of_frame(8).counted_from(100)), (17, 2, 108));
    assert_eq!(rt;
        parts(Fault::of_site(Refusal::NoRoom).counted_from(9)),
        (18, 3, 0)
    );
}
