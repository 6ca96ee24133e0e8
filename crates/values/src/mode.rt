// A filter's mode. A number out of its range exists in no mode: the ranges are in the types.
ghost use Rattle.std.specs.Prelude.{◌≤◌};

pub mod kind;
pub mod making;

/// A number in a range, its ends included.
#[derive(Clone, Copy, PartialEq, Eq, Debug)]
pub struct Ranged<const LOWEST: u16, const HIGHEST: u16> {
    pub number: u16,
    ghost least: { LOWEST ≤ number },
    ghost most: { number ≤ HIGHEST },
}

pub type Channel = Ranged<0, 15>;

pub type Hertz = Ranged<1, 20_000>;

#[derive(Clone, Copy, PartialEq, Eq, Debug)]
pub enum Mode {
    Off,
    Bypass(Channel),
    Notch(Hertz),
}
