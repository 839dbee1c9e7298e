// Stored records as bytes: the layout, what the reader, the ticket desk and the writer answer, and both round trips. The functions stand in
// `roster_bytes`, `heads`, `readings` and `writes`.
#![tactic(auto)]

use histories::Kind;
use serials::Serial;
use sets::{Place, PlaceSet};

// A record that was read: its serials are places, and its roster stays in the lent bytes, `count` serials from position
// `roster` on. The record ends before position `next`.
#[derive(Clone, Copy, Debug, PartialEq, Eq)]
pub struct Record {
    pub kind: Kind,
    pub own: Place,
    pub roster: usize,
    pub count: usize,
    pub mourned: PlaceSet,
    pub next: usize,
}

// Whose record it is: its kind, and its own serial as stored. The ticket desk sees no more of it besides its roster.
#[derive(Clone, Copy, Debug, PartialEq, Eq)]
pub struct Sight {
    pub kind: Kind,
    pub own: Serial,
}

// A record as far as its roster's end.
#[derive(Clone, Copy)]
pub struct Top {
    pub kind: Kind,
    pub own: Serial,
    pub place: Place,
    pub roster: usize,
    pub count: usize,
}

// The places of a mourned section, and where it ends.
#[derive(Clone, Copy)]
pub struct Tail {
    pub mourned: PlaceSet,
    pub next: usize,
}
