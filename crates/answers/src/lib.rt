// What is answered by the parts of a recovery, whatever values they have: the accepted records that a table of rows holds, the answer for a place,
// two histories shown, all places listed, a lent history checked, what to fetch, what a record meets, and a group's serials. Definitions and
// laws; the functions stand in the crates that are named after each.
#![tactic(auto)]

use sets::{Place, PlaceSet};

// Document 01's three answers for a place.
#[derive(Clone, Copy, Debug, PartialEq, Eq)]
pub enum Answer {
    Last,
    NotLast,
    Open,
}

// What a walk gives that looks for some places: whether it met them all, and what it saw.
#[derive(Clone, Copy)]
pub struct Walked {
    pub holds: bool,
    pub seen: PlaceSet,
}

// Both histories are laid down, or the place is decided.
#[derive(Clone, Copy, Debug, PartialEq, Eq)]
pub enum Showing {
    Shown,
    Decided,
}

// How many fetches surely suffice, and the place to fetch next.
#[derive(Clone, Copy, Debug, PartialEq, Eq)]
pub struct Fetching {
    pub number: usize,
    pub next: Place,
}

// A record is taken, or it is the same one again.
#[derive(Clone, Copy, Debug, PartialEq, Eq)]
pub enum Reply {
    Taken,
    Repeated,
}
