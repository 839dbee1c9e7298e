// A recovery beside its pile: records offered in an order, each outcome held to the pile's.
#![tactic(auto)]

pub mod alike;
pub mod laid;

use matrices::cases::Case;
use matrices::{Pile, cases};
use recovery::{Offered, Recovery};
use trials::tallies::Tally;
use trials::{outcomes, parts, stored};

#[derive(Clone, Copy)]
pub struct Group {
    pub recovery: Recovery,
    pub pile: Pile,
    pub tally: Tally,
}

fn opened(c: Case, t: Tally) -> Group {
    let serials = stored::serials();
    let n = c.n;
    let got = recovery::open(parts::of_six(&serials, n));
    let answer = got.answer;
    let recovery = got.recovery;
    let tally = cases::held(
        t,
        c,
        b"open",
        n as u64,
        outcomes::OPENED,
        outcomes::opening(answer),
    );
    let pile = matrices::no_pile();
    Group {
        recovery,
        pile,
        tally,
    }
}

// Offers the record of a place.
pub fn offer(n: usize, r: Recovery, kind: u8, place: usize, mourned: u32) -> Offered {
    let serials = stored::serials();
    let mut bytes = [0u8; 1100];
    let length = stored::record(kind, place, parts::of_six(&serials, n), mourned, &mut bytes);
    recovery::offer(r, parts::of_record(&bytes, length))
}

// What the pile says of a new record: taken where some history fits with it, else 11.
pub fn offered(list: &[u32], with: Pile) -> u64 {
    if matrices::some_fits(list, with) {
        return outcomes::TAKEN;
    }
    11
}

// The pile after a record: with it where it was to be taken.
fn after(pile: Pile, with: Pile, expected: u64) -> Pile {
    if expected == outcomes::TAKEN {
        return with;
    }
    pile
}

// The record of a place offered, unless it is absent.
fn step(list: &[u32], c: Case, g: Group, place: usize) -> Group {
    if cases::is_absent(c, place) {
        return g;
    }
    let kind = cases::kind(c, place);
    let mourned = cases::mourned(c, place);
    let old = g.recovery;
    let pile = g.pile;
    let tally = g.tally;
    let with = matrices::with(pile, kind, place, mourned);
    let expected = offered(list, with);
    let got = offer(c.n, old, kind, place, mourned);
    let answer = got.answer;
    let recovery = got.recovery;
    let next = cases::held(
        tally,
        c,
        b"offer",
        place as u64,
        expected,
        outcomes::reply(answer),
    );
    let left = after(pile, with, expected);
    Group {
        recovery,
        pile: left,
        tally: next,
    }
}

// All records of a case in its order.
pub fn offers(list: &[u32], c: Case, t: Tally) -> Group {
    let mut g = opened(c, t);
    for i in 0..4 {
        g = step(list, c, g, cases::turn(c, i));
    }
    g
}
