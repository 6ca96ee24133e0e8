// What a site receives: an update or a fetch.
use crate::message::{Fetch, Update};

pub mod reading;

#[derive(Drop)]
pub enum Incoming<V> {
    OfUpdate(Update<V>),
    OfFetch(Fetch),
}
