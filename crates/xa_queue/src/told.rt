// What a queue tells of an event that it notes.
use crate::entry::Entry;
use xa_stamp::Noted;

/// An entry that leaves a queue, and the event of it that was noted.
pub struct Outgoing<C> {
    pub entry: Entry<C>,
    pub noted: Noted,
}

/// A server that was given up: the event, and whether none is left.
#[derive(Drop)]
pub struct GivenUp {
    pub noted: Noted,
    pub last: bool,
}
