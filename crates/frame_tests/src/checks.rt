// What the tests of both files ask.
ghost use Rattle.std.specs.Prelude.{IfOk, IsTrue};

use values::fault::Fault;

// What a refusal holds: number, layer and place.
// Stays: as in the tests of two crates below, since tests share no code across crates.
pub(crate) fn parts(fault: Fault) -> (u8, u8, u32) {
    (fault.number(), fault.layer(), fault.place())
}

// Fails the test unless this holds.
pub(crate) fn check(holds: bool) -> Result<(), &'static str>
    ensures { IfOk result (λ _. IsTrue holds) }
{
    if holds {
        Ok(())
    } else {
        Err("a check of the test fails")
    }
}
