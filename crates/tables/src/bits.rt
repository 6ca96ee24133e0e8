// Values as the plain bits that lie in a table.
ghost use Rattle.std.specs.Prelude.{◌≡◌};
ghost use Rattle.protocol.specs.Words.{plain_bytes, sound as sound_bytes};

use values::kind::{Bits, ValueKind};

/// The plain bits of a value.
pub fn plain<V: ValueKind>(value: &V) -> Bits
    ensures { result.bytes ≡ plain_bytes V.kind value.now }
{
    value.write()
}

/// Are these exactly the bits that some value writes?
pub fn sound<V: ValueKind + Drop>(bits: &Bits) -> bool
    ensures { result ≡ sound_bytes V.kind bits.now.bytes }
{
    V::read(bits).is_ok_and(|value| plain(&value) == *bits)
}
