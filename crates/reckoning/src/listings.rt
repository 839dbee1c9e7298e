// The list of all places beside the answers that the pile gives, one byte each.
use crate::cases::Case;
use crate::outcomes::{LAST, LISTED, NOT_LAST, OPEN};
use crate::tallies::Tally;
use crate::{cases, outcomes, parts};
use recovery::Recovery;
use refusals::Refusal;

// What the buffer has before.
const OLD: u8 = 7;

// The byte of an answer; what the buffer had, where the roster ends before the place.
fn byte(said: u64) -> u8 {
    if said == NOT_LAST {
        return 0;
    }
    if said == LAST {
        return 1;
    }
    if said == OPEN {
        return 2;
    }
    OLD
}

fn same(a: [u8; 5], b: [u8; 5]) -> bool {
    a[0] == b[0] && a[1] == b[1] && a[2] == b[2] && a[3] == b[3] && a[4] == b[4]
}

fn outcome(got: Result<(), Refusal>) -> u64 {
    match got {
        Ok(()) => LISTED,
        Err(fault) => fault as u64,
    }
}

// A list into a buffer of so many bytes: the outcome, and all five bytes afterwards.
fn listed(c: Case, r: &Recovery, t: Tally, room: usize, expected: u64, bytes: [u8; 5]) -> Tally {
    let mut out = [OLD; 5];
    let got = recovery::list(*r, parts::lent(&mut out, room));
    let about = room as u64;
    let t = cases::held(t, c, b"list", about, expected, outcome(got));
    cases::held(t, c, b"listed", about, 1, outcomes::truth(same(bytes, out)))
}

// The list with room for one byte more than the roster has places, and with room for one less.
pub fn lists(c: Case, r: &Recovery, t: Tally, of: [u64; 4]) -> Tally {
    let n = c.n;
    if n == 0 {
        return t;
    }
    if 4 < n {
        return t;
    }
    let all = [byte(of[0]), byte(of[1]), byte(of[2]), byte(of[3]), OLD];
    let none = [OLD; 5];
    let t = listed(c, r, t, n + 1, LISTED, all);
    listed(c, r, t, n - 1, 13, none)
}
