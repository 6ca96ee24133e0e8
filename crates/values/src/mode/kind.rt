// Modes as a value kind: 18 bits, a tag of 2 and an argument of 16.
ghost use Rattle.std.specs.Prelude.{◌≡◌};
ghost use Rattle.values.specs.Modes.{mode_kind, mode_of, tag as tag_of, argument as argument_of};
ghost use Rattle.values.specs.ModeLaws.{mode_lawful};

use crate::fault::Fault;
use crate::kind::{Bits, ValueKind};
use crate::mode::{Channel, Hertz, Mode};
use fields::field::{get, put};

fn tag(mode: &Mode) -> u32
    ensures { result ≡ tag_of mode.now }
{
    match mode {
        Mode::Off => 0,
        Mode::Bypass(_) => 1,
        Mode::Notch(_) => 2,
    }
}

fn argument(mode: &Mode) -> u32
    ensures { result ≡ argument_of mode.now }
{
    match mode {
        Mode::Off => 0,
        Mode::Bypass(channel) => channel.number as u32,
        Mode::Notch(hertz) => hertz.number as u32,
    }
}

// The mode of a tag and an argument, or the first bit of the refused one.
// Stays: numbers, since an enum of the three tags would be made of the same numbers by the same match, one step before.
fn mode(tag: u32, argument: u32) -> Result<Mode, Fault>
    ensures { result ≡ mode_of tag argument }
{
    let argument_refused = Fault::of_value(2);
    match tag {
        0 if argument == 0 => Ok(Mode::Off),
        0 => Err(argument_refused),
        1 => Channel::new(argument)
            .map(Mode::Bypass)
            .ok_or(argument_refused),
        2 => Hertz::new(argument)
            .map(Mode::Notch)
            .ok_or(argument_refused),
        _ => Err(Fault::of_value(0)),
    }
}

impl ValueKind for Mode {
    ghost kind = { mode_kind };

    ghost lawful = { mode_lawful };

    fn start() -> Mode {
        Mode::Off
    }

    fn width() -> u32 {
        18
    }

    fn write(&self) -> Bits {
        let mut bytes = [0; 32];
        put(&mut bytes, 0, 2, tag(self));
        put(&mut bytes, 2, 16, argument(self));
        Bits { bytes }
    }

    fn read(bits: &Bits) -> Result<Mode, Fault> {
        let tag = get(&bits.bytes, 0, 2);
        let argument = get(&bits.bytes, 2, 16);
        mode(tag, argument)
    }
}
