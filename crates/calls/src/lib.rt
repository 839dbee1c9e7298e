// A recovery: what each call on it gives, for every recovery and every input, and what holds of whole lists of calls: demand 3, what stays
// decided, the order of records, the round trips. The functions stand in `openings`, `offerings`, `askings` and `showings`.
#![tactic(auto)]

use answers::Reply;
use refusals::Refusal;
use rows::Rows;
use sets::PlaceSet;

// The first `count` of `serials` are the roster, and `seconds` has the second serial of each place, 0 where it was given none. A place in
// `returned` is back, and its row is its record's mourned set; every other row is empty. `full` has those back whose record is full,
// `mourned` all that stand in a row, and `earlier` those before a place of `full`.
#[derive(Clone, Copy)]
pub struct Recovery {
    pub count: usize,
    pub serials: [u32; 128],
    pub seconds: [u32; 128],
    pub returned: PlaceSet,
    pub full: PlaceSet,
    pub mourned: PlaceSet,
    pub earlier: PlaceSet,
    pub rows: Rows,
}

// What opening gives: where it is refused, the recovery has no places.
#[derive(Clone, Copy)]
pub struct Opened {
    pub answer: Result<(), Refusal>,
    pub recovery: Recovery,
}

// What offering gives: where nothing was taken, the recovery is as it was.
#[derive(Clone, Copy)]
pub struct Offered {
    pub answer: Result<Reply, Refusal>,
    pub recovery: Recovery,
}

// What giving a second serial gives: where it is refused, the recovery is as it was.
#[derive(Clone, Copy)]
pub struct Gave {
    pub answer: Result<(), Refusal>,
    pub recovery: Recovery,
}
