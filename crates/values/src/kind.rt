// What a value kind promises. Frames and sites rest on the law alone and never look behind it.
ghost use Rattle.std.specs.Prelude.{◌≡◌, ◌≤◌};
ghost use Rattle.fields.specs.Bits.{bits_of};
ghost use Rattle.values.specs.Kinds.{Kind, Lawful, plain, taken};

use crate::fault::Fault;

/// The plain bits of a value, first bit first from the top of byte 0, zero behind the width. Plain and Copy, so that
/// they lie in tables, where a value with an invariant could not.
// Stays: 32 bytes whatever the width; a size by the kind would be a const parameter of every item, table and site.
#[derive(Clone, Copy, PartialEq, Eq)]
pub struct Bits {
    pub bytes: [u8; 32],
}

pub trait ValueKind: Sized {
    ghost kind: { Kind Self };

    /// What a register holds before its first write.
    fn start() -> Self
        ensures { result ≡ kind.start };

    /// How many bits each value is written as.
    fn width() -> u32
        ensures exact { result ≡ kind.width }
        ensures range { (1 ≤ result) × (result ≤ 256) };

    fn write(&self) -> Bits
        ensures { bits_of result.bytes ≡ plain kind self.now };

    /// The value that the first bits make, or refusal 16 with the first bit of the refused field.
    fn read(bits: &Bits) -> Result<Self, Fault>
        ensures { result ≡ kind.read (taken kind bits.now.bytes) };

    ghost lawful: { Lawful kind };
}
