// A day of stops (an execution): who has stopped, and whom each has heard stop; what each call on a day gives, and what holds of the records of a day
// that is over. The functions stand in `day_records`, `day_events` and `day_plays`.
#![tactic(auto)]

use histories::Kind;
use refusals::Refusal;
use rows::Rows;
use sets::{Place, PlaceSet};

// The first `count` of `serials` are the roster. A place in `stopped` runs no more; its row, and that of one that runs, are the places that it
// has heard stop.
#[derive(Clone, Copy)]
pub struct Day {
    pub kind: Kind,
    pub count: usize,
    pub serials: [u32; 128],
    pub stopped: PlaceSet,
    pub rows: Rows,
}

// What opening gives: where it is refused, the day has no places.
#[derive(Clone, Copy)]
pub struct Begun {
    pub answer: Result<(), Refusal>,
    pub day: Day,
}

// An event: of kind 1, `place` stops; of kind 2, `place` hears that `other` has stopped. No other kind is allowed.
#[derive(Clone, Copy)]
pub struct Event {
    pub kind: u8,
    pub place: Place,
    pub other: Place,
}

// What one event gives: whether it happened or its refusal, and the day after it.
#[derive(Clone, Copy)]
pub struct Happened {
    pub answer: Result<(), Refusal>,
    pub day: Day,
}

// What a list of events gives: how many were played, whether all were or the number of the refusal that ended the play, and the day after those played.
#[derive(Clone, Copy)]
pub struct Played {
    pub count: usize,
    // A number and no `Refusal`: what a caller filled in is given back, whatever number it is.
    pub answer: Result<(), u8>,
    pub day: Day,
}
