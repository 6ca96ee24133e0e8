// A block of samples: exactly eight signed numbers of 16 bits, in the order in which they were taken.
ghost use Rattle.std.specs.Prelude.{◌^◌, ◌<◌};
ghost use Rattle.std.specs.Int.Signed.{mag};

pub mod kind;

// Stays: a block is eight single fields by a rule of the project (a value that is read passes in it), so each is written and read by its name.
#[derive(Clone, Copy, PartialEq, Eq, Debug)]
pub struct Block {
    pub first: i16,
    pub second: i16,
    pub third: i16,
    pub fourth: i16,
    pub fifth: i16,
    pub sixth: i16,
    pub seventh: i16,
    pub eighth: i16,
    ghost first_fits: { mag first < 2 ^ 15 },
    ghost second_fits: { mag second < 2 ^ 15 },
    ghost third_fits: { mag third < 2 ^ 15 },
    ghost fourth_fits: { mag fourth < 2 ^ 15 },
    ghost fifth_fits: { mag fifth < 2 ^ 15 },
    ghost sixth_fits: { mag sixth < 2 ^ 15 },
    ghost seventh_fits: { mag seventh < 2 ^ 15 },
    ghost eighth_fits: { mag eighth < 2 ^ 15 },
}
