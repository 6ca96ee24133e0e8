// One site of a rack with its tables, and the session of its one user.
use sites::session::{Awaiting, Idle};
use sites::site::Site;
use waiting::items::{Replica, WaitingFetch, WaitingUpdate};

mod abandoning;
mod calls;
mod fetching;
mod reading;
mod replying;
mod serving;
mod session;

/// The session, as it is at hand: resting between fetches, or fetching.
#[derive(Drop)]
pub enum Held {
    Resting(Idle),
    Fetching(Awaiting),
}

/// The session is there unless a call has it.
#[derive(Drop)]
pub struct Station {
    pub(crate) site: Site,
    pub(crate) copies: Vec<Replica>,
    pub(crate) updates: Vec<WaitingUpdate>,
    pub(crate) fetches: Vec<WaitingFetch>,
    pub(crate) session: Option<Held>,
}
