// A layer over any placement: one site more that holds every register.
use crate::Placement;

/// The placement below, which the witness holds by value, and the site that becomes a holder of each register.
/// A site that is not one of the placement's adds nothing; `over` makes no such witness.
#[derive(Debug, PartialEq, Eq, Drop)]
pub struct Witness<P: Placement> {
    below: P,
    site: u8,
}

pub mod calls;
