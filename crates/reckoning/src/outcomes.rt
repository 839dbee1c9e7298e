// Every outcome as one number: a refusal is its own number, the others stand above all sets, counts and positions that occur.
use crate::say;
use answers::{Answer, Fetching, Reply, Showing};
use refusals::Refusal;
use serials::Finding;
use sets::PlaceSet;
use std::io::{self, Stdout};

pub const OPENED: u64 = 1000001;

pub const TAKEN: u64 = 1000002;

pub const REPEATED: u64 = 1000003;

pub const LAST: u64 = 1000004;

pub const NOT_LAST: u64 = 1000005;

pub const OPEN: u64 = 1000006;

pub const SHOWN: u64 = 1000007;

pub const DECIDED: u64 = 1000008;

pub const FITS: u64 = 1000009;

pub const FITS_NOT: u64 = 1000010;

pub const NOTHING: u64 = 1000011;

pub const HIGH: u64 = 1000012;

pub const GIVEN: u64 = 1000013;

pub const LISTED: u64 = 1000014;

pub const SETTLED: u64 = 1000015;

// A place found by its second serial is this and the place.
pub const SECOND: u64 = 1001000;

// An outcome in words, or as the number that it is.
pub fn write(to: Stdout, x: u64) -> io::Result<()> {
    match x {
        1000001 => say::text(to, b"opened"),
        1000002 => say::text(to, b"taken"),
        1000003 => say::text(to, b"repeated"),
        1000004 => say::text(to, b"last"),
        1000005 => say::text(to, b"not"),
        1000006 => say::text(to, b"open"),
        1000007 => say::text(to, b"shown"),
        1000008 => say::text(to, b"decided"),
        1000009 => say::text(to, b"fits"),
        1000010 => say::text(to, b"fits not"),
        1000011 => say::text(to, b"nothing"),
        1000012 => say::text(to, b"places from 64 on"),
        1000013 => say::text(to, b"given"),
        1000014 => say::text(to, b"listed"),
        1000015 => say::text(to, b"settled"),
        1001000..=1001127 => {
            say::text(to, b"second of place ")?;
            say::number(to, std::num::wrapping_sub_u64(x, SECOND))
        }
        _ => say::number(to, x),
    }
}

pub fn opening(got: Result<(), Refusal>) -> u64 {
    match got {
        Ok(()) => OPENED,
        Err(fault) => fault as u64,
    }
}

pub fn reply(got: Result<Reply, Refusal>) -> u64 {
    match got {
        Ok(Reply::Taken) => TAKEN,
        Ok(Reply::Repeated) => REPEATED,
        Err(fault) => fault as u64,
    }
}

pub fn asked(got: Result<Answer, Refusal>) -> u64 {
    match got {
        Ok(Answer::Last) => LAST,
        Ok(Answer::NotLast) => NOT_LAST,
        Ok(Answer::Open) => OPEN,
        Err(fault) => fault as u64,
    }
}

pub fn showing(got: Result<Showing, Refusal>) -> u64 {
    match got {
        Ok(Showing::Shown) => SHOWN,
        Ok(Showing::Decided) => DECIDED,
        Err(fault) => fault as u64,
    }
}

pub fn checked(got: Result<bool, Refusal>) -> u64 {
    match got {
        Ok(true) => FITS,
        Ok(false) => FITS_NOT,
        Err(fault) => fault as u64,
    }
}

// Where a written record ends. Refusals are told from the positions, which are larger than 15 in all cases here.
pub fn writing(got: Result<usize, Refusal>) -> u64 {
    match got {
        Ok(next) => next as u64,
        Err(fault) => fault as u64,
    }
}

// The place of a serial, by its first serial or by its second one.
pub fn found(got: Option<Finding>) -> u64 {
    match got {
        Some(Finding::First(place)) => place.0 as u64,
        Some(Finding::Second(place)) => std::num::wrapping_add_u64(SECOND, place.0 as u64),
        None => NOTHING,
    }
}

pub fn giving(got: Result<(), Refusal>) -> u64 {
    match got {
        Ok(()) => GIVEN,
        Err(fault) => fault as u64,
    }
}

// How many fetches are told.
pub fn fetching(got: Option<Fetching>) -> u64 {
    match got {
        None => SETTLED,
        Some(fetching) => fetching.number as u64,
    }
}

// The place that is told.
pub fn next(got: Option<Fetching>) -> u64 {
    match got {
        None => NOTHING,
        Some(fetching) => fetching.next.0 as u64,
    }
}

// How many fetches a game lasts: at most four, so that they are told from refusals.
pub fn played(got: Result<usize, Refusal>) -> u64 {
    match got {
        Ok(fetches) => fetches as u64,
        Err(fault) => fault as u64,
    }
}

// A set of small places: the sum of their bits.
pub fn set(got: PlaceSet) -> u64 {
    if got.high != 0 {
        return HIGH;
    }
    got.low
}

pub fn truth(got: bool) -> u64 {
    if got {
        return 1;
    }
    0
}
