// Coefficients as a value kind: 32 bits in two's complement.
ghost use Rattle.values.specs.Coefficients.{coefficient_kind};
ghost use Rattle.values.specs.CoefficientLaws.{coefficient_lawful};

use crate::coefficient::Coefficient;
use crate::fault::Fault;
use crate::kind::{Bits, ValueKind};
use fields::field::{get, put};

impl ValueKind for Coefficient {
    ghost kind = { coefficient_kind };

    ghost lawful = { coefficient_lawful };

    fn start() -> Coefficient {
        Coefficient { value: 0 }
    }

    fn width() -> u32 {
        32
    }

    fn write(&self) -> Bits {
        let mut bytes = [0; 32];
        put(&mut bytes, 0, 32, self.value.cast_unsigned());
        Bits { bytes }
    }

    fn read(bits: &Bits) -> Result<Coefficient, Fault> {
        Ok(Coefficient {
            value: get(&bits.bytes, 0, 32).cast_signed(),
        })
    }
}
