// Every site holds every register.
use crate::size::Size;

/// The placement on n sites of R registers that are held everywhere.
#[derive(Clone, Copy, Debug, PartialEq, Eq)]
pub struct Full {
    size: Size,
}

pub mod calls;
