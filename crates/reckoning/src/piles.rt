// A recovery beside its pile: records offered in an order, each outcome held to the pile's, and then the answers.
ghost use Rattle.std.specs.Prelude.{◌≤◌};

use crate::cases::Case;
use crate::matrices::Pile;
use crate::outcomes::OPEN;
use crate::tallies::Tally;
use crate::{cases, listings, matrices, outcomes, parts, stored, told};
use recovery::{Offered, Recovery};
use sets::Place;

#[derive(Clone, Copy)]
pub struct Group {
    pub recovery: Recovery,
    pub pile: Pile,
    pub tally: Tally,
}

fn opened(c: Case, t: Tally) -> Group {
    let serials = stored::serials();
    let n = c.n;
    let got = recovery::open(parts::of_six(&serials, n));
    let answer = got.answer;
    let recovery = got.recovery;
    let tally = cases::held(
        t,
        c,
        b"open",
        n as u64,
        outcomes::OPENED,
        outcomes::opening(answer),
    );
    let pile = matrices::no_pile();
    Group {
        recovery,
        pile,
        tally,
    }
}

// Lays the record of a place, and says how long it is.
fn record(n: usize, kind: u8, place: usize, mourned: u32, out: &mut [u8; 1100]) -> usize
    ensures { result ≤ 1100 }
{
    let serials = stored::serials();
    stored::record(kind, place, parts::of_six(&serials, n), mourned, out)
}

// Offers the record of a place.
pub fn offer(n: usize, r: &Recovery, kind: u8, place: usize, mourned: u32) -> Offered {
    let mut bytes = [0u8; 1100];
    let length = record(n, kind, place, mourned, &mut bytes);
    recovery::offer(*r, parts::of_record(&bytes, length))
}

// What offering it says.
pub fn reply(n: usize, r: &Recovery, kind: u8, place: usize, mourned: u32) -> u64 {
    let mut bytes = [0u8; 1100];
    let length = record(n, kind, place, mourned, &mut bytes);
    let got = recovery::offer(*r, parts::of_record(&bytes, length));
    outcomes::reply(got.answer)
}

// What the pile says of a new record: taken where some history fits with it, else 11.
pub fn offered(list: &[u32], with: Pile) -> u64 {
    if matrices::some_fits(list, with) {
        return outcomes::TAKEN;
    }
    11
}

// The pile after a record: with it where it was to be taken.
fn after(pile: Pile, with: Pile, expected: u64) -> Pile {
    if expected == outcomes::TAKEN {
        return with;
    }
    pile
}

// The record of a place offered, unless it is absent.
fn step(list: &[u32], c: Case, g: &mut Group, bytes: &mut [u8; 1100], place: usize) {
    if cases::is_absent(c, place) {
        return;
    }
    let kind = cases::kind(c, place);
    let mourned = cases::mourned(c, place);
    let pile = g.pile;
    let tally = g.tally;
    let with = matrices::with(pile, kind, place, mourned);
    let expected = offered(list, with);
    let length = record(c.n, kind, place, mourned, bytes);
    let got = recovery::offer(g.recovery, parts::of_record(bytes, length));
    let answer = got.answer;
    g.recovery = got.recovery;
    g.tally = cases::held(
        tally,
        c,
        b"offer",
        place as u64,
        expected,
        outcomes::reply(answer),
    );
    g.pile = after(pile, with, expected);
}

// All records of a case in its order.
pub fn offers(list: &[u32], c: Case, t: Tally) -> Group {
    let mut g = opened(c, t);
    let mut bytes = [0u8; 1100];
    for i in 0..4 {
        step(list, c, &mut g, &mut bytes, cases::turn(c, i));
    }
    g
}

// What the pile says of a place, nothing where the roster ends before it.
fn said(list: &[u32], n: usize, pile: Pile, all: usize, place: usize) -> u64 {
    if n <= place {
        return outcomes::NOTHING;
    }
    matrices::answer(list, pile, all, place)
}

fn ask(c: Case, r: &Recovery, t: Tally, place: usize, expected: u64) -> Tally {
    if c.n <= place {
        return t;
    }
    let got = recovery::ask(*r, Place(place));
    cases::held(t, c, b"ask", place as u64, expected, outcomes::asked(got))
}

// Both sets and the count.
fn sets(c: Case, r: &Recovery, pile: Pile, t: Tally) -> Tally {
    let all = matrices::unmourned(c.n, pile);
    let absent = matrices::unmourned_absent(c.n, pile);
    let got = recovery::unmourned(*r);
    let t = cases::held(t, c, b"unmourned", 0, all as u64, outcomes::set(got));
    let got = recovery::unmourned_absent(*r);
    let t = cases::held(
        t,
        c,
        b"unmourned absent",
        0,
        absent as u64,
        outcomes::set(got),
    );
    let got = recovery::unmourned_count(*r);
    cases::held(t, c, b"count", 0, matrices::size(all) as u64, got as u64)
}

fn settled(c: Case, r: &Recovery, t: Tally, expected: bool) -> Tally {
    let whole = outcomes::truth(expected);
    let got = recovery::settled(*r);
    cases::held(t, c, b"settled", 0, whole, outcomes::truth(got))
}

// Every answer of a group: the sets, whether the whole is settled, what is to fetch, each place, and all in one list.
pub fn answers(list: &[u32], c: Case, g: &Group) -> Tally {
    let r = &g.recovery;
    let pile = g.pile;
    let tally = g.tally;
    let all = matrices::fitting(list, pile);
    let of_0 = said(list, c.n, pile, all, 0);
    let of_1 = said(list, c.n, pile, all, 1);
    let of_2 = said(list, c.n, pile, all, 2);
    let of_3 = said(list, c.n, pile, all, 3);
    let whole = of_0 != OPEN && of_1 != OPEN && of_2 != OPEN && of_3 != OPEN;
    let t = sets(c, r, pile, tally);
    let t = settled(c, r, t, whole);
    let t = told::beside(c, r, matrices::blocking(list, c.n, pile), t, whole);
    let t = ask(c, r, t, 0, of_0);
    let t = ask(c, r, t, 1, of_1);
    let t = ask(c, r, t, 2, of_2);
    let t = ask(c, r, t, 3, of_3);
    listings::lists(c, r, t, [of_0, of_1, of_2, of_3])
}

// A case from its opening on.
pub fn played(list: &[u32], c: Case, t: Tally) -> Tally {
    let g = offers(list, c, t);
    answers(list, c, &g)
}
