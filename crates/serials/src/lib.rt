// Serials, first and second, and lists of them taken as rosters: where a serial stands, the faults of a list, and orders of its places. The
// functions stand in `lookups`, `rosters` and `orders`.
#![tactic(auto)]

use sets::Place;

// A controller's serial: document 01's 32-bit number, never 0 on a roster. It is no place, and a place is no serial.
#[derive(Clone, Copy, Debug, PartialEq, Eq)]
pub struct Serial(pub u32);

// Where a serial is found on a roster, as the first or as the second serial of a place.
#[derive(Clone, Copy, Debug, PartialEq, Eq)]
pub enum Finding {
    First(Place),
    Second(Place),
}
