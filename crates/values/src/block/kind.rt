// Blocks as a value kind: 128 bits, eight fields of 16 in two's complement, the first sample first.
ghost use Rattle.std.specs.Prelude.{◌≡◌, ◌+◌, ◌*◌, ◌≤◌, length};
ghost use Rattle.std.specs.Int.{w16};
ghost use Rattle.std.proofs.Common.{to_z};
ghost use Rattle.fields.specs.Bits.{bits_of, num};
ghost use Rattle.fields.specs.Fields.{run, field as field_at};
ghost use Rattle.values.specs.Blocks.{block_kind};
ghost use Rattle.values.specs.BlockLaws.{block_lawful};

use crate::block::Block;
use crate::fault::Fault;
use crate::kind::{Bits, ValueKind};
use fields::field::{get, put};

// The sample in the field of 16 bits from `at` on.
fn sample(bytes: &[u8], at: usize) -> i16
    requires { (at ≤ 240) × (length bytes.now ≡ 32) }
    ensures { result ≡ to_z w16 (field_at (bits_of bytes.now) at 16) }
{
    (get(bytes, at, 16) as u16).cast_signed()
}

impl ValueKind for Block {
    ghost kind = { block_kind };

    ghost lawful = { block_lawful };

    fn start() -> Block {
        Block {
            first: 0,
            second: 0,
            third: 0,
            fourth: 0,
            fifth: 0,
            sixth: 0,
            seventh: 0,
            eighth: 0,
        }
    }

    fn width() -> u32 {
        128
    }

    fn write(&self) -> Bits {
        let mut bytes = [0; 32];
        put(&mut bytes, 0, 16, self.first.cast_unsigned() as u32);
        put(&mut bytes, 16, 16, self.second.cast_unsigned() as u32);
        put(&mut bytes, 32, 16, self.third.cast_unsigned() as u32);
        put(&mut bytes, 48, 16, self.fourth.cast_unsigned() as u32);
        put(&mut bytes, 64, 16, self.fifth.cast_unsigned() as u32);
        put(&mut bytes, 80, 16, self.sixth.cast_unsigned() as u32);
        put(&mut bytes, 96, 16, self.seventh.cast_unsigned() as u32);
        put(&mut bytes, 112, 16, self.eighth.cast_unsigned() as u32);
        Bits { bytes }
    }

    fn read(bits: &Bits) -> Result<Block, Fault> {
        let first = sample(&bits.bytes, 0);
        let second = sample(&bits.bytes, 16);
        let third = sample(&bits.bytes, 32);
        let fourth = sample(&bits.bytes, 48);
        let fifth = sample(&bits.bytes, 64);
        let sixth = sample(&bits.bytes, 80);
        let seventh = sample(&bits.bytes, 96);
        let eighth = sample(&bits.bytes, 112);
        Ok(Block {
            first,
            second,
            third,
            fourth,
            fifth,
            sixth,
            seventh,
            eighth,
        })
    }
}
