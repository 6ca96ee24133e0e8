// Register r is held by p sites in a row from site r modulo n on, going round.
ghost use Rattle.std.specs.Prelude.{◌≤◌};

use crate::size::Size;

/// The ring of n sites with R registers, each on `copies` sites.
#[derive(Clone, Copy, Debug, PartialEq, Eq)]
pub struct Ring {
    size: Size,
    copies: u8,
    ghost held: { (1 ≤ copies) × (copies ≤ size.sites) },
}

pub mod calls;
