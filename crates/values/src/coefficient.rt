// A filter's coefficient: a signed number of 32 bits.
ghost use Rattle.std.specs.Prelude.{◌^◌, ◌<◌};
ghost use Rattle.std.specs.Int.Signed.{mag};

pub mod kind;

#[derive(Clone, Copy, PartialEq, Eq, Debug)]
pub struct Coefficient {
    pub value: i32,
    ghost fits: { mag value < 2 ^ 31 },
}
