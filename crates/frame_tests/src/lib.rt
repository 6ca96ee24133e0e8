// Tests of frames: each of the three kinds there and back, and every refusal at its bit.
#![tactic(auto)]

#[cfg(test)]
mod checks;
#[cfg(test)]
mod refusals;
#[cfg(test)]
mod trips;
