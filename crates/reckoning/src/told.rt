// What a crew is told to fetch, beside the places that block by the histories.
use crate::cases::Case;
use crate::outcomes::{NOTHING, SETTLED};
use crate::tallies::Tally;
use crate::{cases, matrices, outcomes};
use recovery::Recovery;

// How many fetches a set of blocking places takes.
fn fetches(set: u32) -> u64 {
    if set == 0 {
        return SETTLED;
    }
    matrices::size(set) as u64
}

// The lowest place of a set.
fn lowest(set: u32) -> u64 {
    if set % 2 == 1 {
        return 0;
    }
    if set / 2 % 2 == 1 {
        return 1;
    }
    if set / 4 % 2 == 1 {
        return 2;
    }
    if set / 8 % 2 == 1 {
        return 3;
    }
    NOTHING
}

// What is told where these places block, and that there is nothing to fetch just where the histories leave no place open.
pub fn beside(c: Case, r: &Recovery, set: u32, t: Tally, settled: bool) -> Tally {
    let got = recovery::to_fetch(*r);
    let told = outcomes::fetching(got);
    let next = outcomes::next(got);
    let t = cases::held(t, c, b"to fetch", 0, fetches(set), told);
    let t = cases::held(t, c, b"fetch next", 0, lowest(set), next);
    let nothing = outcomes::truth(told == SETTLED);
    cases::held(
        t,
        c,
        b"nothing to fetch",
        0,
        outcomes::truth(settled),
        nothing,
    )
}
