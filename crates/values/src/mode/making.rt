// Making modes from numbers that may be out of range.
ghost use Rattle.std.specs.Prelude.{◌≡◌};
ghost use Rattle.values.specs.Refusals.{of_site};
ghost use Rattle.values.specs.Modes.{ranged_of, bypass_of, notch_of};

use crate::fault::{Fault, Refusal};
use crate::mode::{Channel, Hertz, Mode, Ranged};

impl<const LOWEST: u16, const HIGHEST: u16> Ranged<LOWEST, HIGHEST> {
    // Stays: an `Option`, as of std's `NonZero::new`, and no `TryFrom`: a making refuses such a number with 1 and a reading with 16.
    pub fn new(number: u32) -> Option<Ranged<LOWEST, HIGHEST>>
        ensures { result ≡ ranged_of LOWEST HIGHEST number }
    {
        // Stays: an `if` and no `then`, whose proof needs what the test said and gets no proof of the borrows.
        if (u32::from(LOWEST)..=u32::from(HIGHEST)).contains(&number) {
            Some(Ranged {
                number: number as u16,
            })
        } else {
            None
        }
    }
}

impl Mode {
    /// A channel above 15 is refused with 1.
    pub fn bypass(channel: u32) -> Result<Mode, Fault>
        ensures { result ≡ bypass_of (of_site Refusal.OutOfRange) channel }
    {
        Channel::new(channel)
            .map(Mode::Bypass)
            .ok_or(Fault::of_site(Refusal::OutOfRange))
    }

    /// A frequency outside 1 to 20,000 is refused with 1.
    pub fn notch(hertz: u32) -> Result<Mode, Fault>
        ensures { result ≡ notch_of (of_site Refusal.OutOfRange) hertz }
    {
        Hertz::new(hertz)
            .map(Mode::Notch)
            .ok_or(Fault::of_site(Refusal::OutOfRange))
    }
}
