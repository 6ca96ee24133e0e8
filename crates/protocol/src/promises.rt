// What the memory promises, for every value kind and every placement with homes.
ghost use Rattle.protocol.specs.Promises.{EveryRunKeepsThePromises};
ghost use Rattle.protocol.specs.States.{placing};

use placements::{Homes, Placement};
use values::kind::ValueKind;

/// Every run on a new rack of this placement: writes are applied in causal order, no read is stale, and an update is ready exactly when it is
/// due. A call does nothing: the promise is a fact about the rules.
pub fn every_run<V: ValueKind, P: Homes>(placement: &P)
    ensures { EveryRunKeepsThePromises V.kind (placing P.Homes placement.now) }
{}
