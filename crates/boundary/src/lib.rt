// The boundary to C: a recovery and a day as words and bytes in the caller's memory, and documents 01's and 02's answers as numbers. The functions
// stand in `words` and the crates that are named capi.
#![tactic(auto)]

use histories::Kind;
use sets::PlaceSet;

// What a writer gives: a refusal and 0, or 0 and where the record ends.
#[repr(C)]
#[derive(Clone, Copy)]
pub struct End {
    pub refusal: u64,
    pub next: u64,
}

// What finding a serial gives: which of the place's two it is, and the place.
#[repr(C)]
#[derive(Clone, Copy)]
pub struct FoundNow {
    pub answer: u64,
    pub place: u64,
}

// What they say: the count, and the places that are back, the full ones, the mourned ones and the earlier ones.
#[derive(Clone, Copy)]
pub struct Head {
    pub count: usize,
    pub returned: PlaceSet,
    pub full: PlaceSet,
    pub mourned: PlaceSet,
    pub earlier: PlaceSet,
}

// A day by value: its four words, its serials and its rows.
#[repr(C)]
#[derive(Clone, Copy)]
pub struct DayNow {
    pub head: [u64; 4],
    pub serials: [u32; 128],
    pub rows: [u8; 2048],
}

// An event: of kind 1 `place` stops, of kind 2 `place` hears that `other` has stopped.
#[repr(C)]
#[derive(Clone, Copy)]
pub struct EventNow {
    pub kind: u64,
    pub place: u64,
    pub other: u64,
}

// What a list of events gives: how many were played, the refusal that ended the play, or 0, and the day after those played.
#[repr(C)]
#[derive(Clone, Copy)]
pub struct PlayedNow {
    pub count: u64,
    pub refusal: u64,
    pub day: DayNow,
}

// What they say: the kind, the count, and the places that have stopped.
#[derive(Clone, Copy)]
pub struct DayHead {
    pub kind: Kind,
    pub count: usize,
    pub stopped: PlaceSet,
}

// How many fetches surely suffice, and the place to fetch next; 0 and 128, which is no place, where nothing is open.
#[repr(C)]
#[derive(Clone, Copy)]
pub struct FetchNow {
    pub number: u64,
    pub place: u64,
}

// What a game played out gives: 0 and how many fetches it lasts, or a refusal and 0.
#[repr(C)]
#[derive(Clone, Copy)]
pub struct GameNow {
    pub refusal: u64,
    pub fetches: u64,
}
