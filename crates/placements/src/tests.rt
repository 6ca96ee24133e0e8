// Worked examples and the edges of the ranges.
use crate::full::Full;
use crate::listed::Listed;
use crate::ring::Ring;
use crate::witness::Witness;
use crate::{Homes, Placement};
use std::test::Fail;
use values::fault::{Fault, Refusal};

#[test]
fn full_ranges(rt: HostRuntime) -> Result<(), Fail> {
    let refused = Fault::of_site(Refusal::OutOfRange);
    assert!(rt; Full::new(1, 4).is_err() && Full::new(9, 4).is_err());
    assert!(rt; Full::new(3, 0).is_err() && Full::new(3, 257).is_err());
    assert_eq!(rt; Full::new(3, 257).err(), Some(refused));
    assert_eq!(rt; Full::new(2, 1)?.holders(0), 3);
    let full = Full::new(8, 256)?;
    assert_eq!(rt; full.holders(255), 255);
    assert_eq!(rt; full.holders(256), 0);
    Ok(())
}

#[test]
fn ring_goes_round(rt: HostRuntime) -> Result<(), Fail> {
    assert!(rt; Ring::new(3, 4, 0).is_err() && Ring::new(3, 4, 4).is_err());
    let ring = Ring::new(3, 4, 2)?;
    assert_eq!(rt; ring.holders(0), 3);
    assert_eq!(rt; ring.holders(2), 5);
    assert_eq!(rt; ring.holders(4), 0);
    assert_eq!(rt; ring.home(0, 2), 0);
    assert_eq!(rt; ring.home(1, 2), 2);
    Ok(())
}

#[test]
fn witnesses_over_a_ring(rt: HostRuntime) -> Result<(), Fail> {
    let ring = Ring::new(3, 4, 2)?;
    assert!(rt; Witness::over(ring, 3).is_err());
    let one = Witness::over(ring, 1)?;
    assert_eq!(rt; one.holders(2), 7);
    assert_eq!(rt; one.home(1, 2), 1);
    let thin = Ring::new(4, 4, 1)?;
    let pile = Witness::over(Witness::over(thin, 1)?, 2)?;
    assert_eq!(rt; pile.holders(3), 14);
    assert_eq!(rt; pile.home(1, 3), 1);
    assert_eq!(rt; pile.home(0, 3), 3);
    Ok(())
}

#[test]
fn listed_fills(rt: HostRuntime) -> Result<(), Fail> {
    let mut listed = Listed::new();
    assert_eq!(rt; listed.holders(0), 1);
    listed.fill(3, &[6, 1])?;
    assert_eq!(rt; listed.holders(0), 6);
    assert_eq!(rt; listed.home(0, 0), 1);
    assert!(rt; listed.fill(3, &[0]).is_err() && listed.fill(3, &[8]).is_err());
    assert!(rt; listed.fill(9, &[1]).is_err() && listed.fill(3, &[]).is_err());
    assert_eq!(rt; listed.holders(0), 6);
    assert_eq!(rt; listed.registers(), 2);
    Ok(())
}

#[test]
fn listed_at_its_size(rt: HostRuntime) -> Result<(), Fail> {
    let mut listed = Listed::new();
    assert!(rt; listed.fill(8, &[255; 257]).is_err());
    listed.fill(8, &[255; 256])?;
    assert_eq!(rt; listed.holders(255), 255);
    Ok(())
}
