// Sessions: who may write, read and fetch at a site. A session is moved from call to call and cannot be copied, so one that a begun fetch has taken
// cannot write, and one awaiting session takes at most one reply. It carries its site's number and fetch number.
// Stays: two types of the same two numbers, since a session's type is what says which calls may be made with it, and a marker would be two types more.
ghost use Rattle.std.specs.Prelude.{◌≡◌, ◌+◌, ◌<◌};
ghost use Rattle.clocks.specs.Counts.{limit};

/// Nothing is out: the holder may write, read and begin a fetch.
#[derive(Drop)]
pub struct Idle {
    pub(crate) site: u8,
    pub(crate) fetched: u32,
}

impl Idle {
    // A fetch was begun: the session of the next fetch number.
    pub(crate) fn into_awaiting(self) -> Awaiting
        requires { self.fetched < limit }
        ensures { result ≡ record { site = self.site; fetched = self.fetched + 1 } }
    {
        Awaiting {
            site: self.site,
            fetched: self.fetched + 1,
        }
    }
}

/// A fetch is out: the holder may take its reply or abandon it.
#[derive(Drop)]
pub struct Awaiting {
    pub(crate) site: u8,
    pub(crate) fetched: u32,
}

impl Awaiting {
    // The fetch is over.
    pub(crate) fn into_idle(self) -> Idle
        ensures { result ≡ record { site = self.site; fetched = self.fetched } }
    {
        Idle {
            site: self.site,
            fetched: self.fetched,
        }
    }
}
