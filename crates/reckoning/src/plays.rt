// The game of fetches beside a table over all piles of a roster of at most three places: how many fetches it lasts from each. A record
// more makes a pile's number larger, so that the table is filled from the highest pile down.
use crate::cases::Case;
use crate::matrices::Pile;
use crate::outcomes::{OPEN, SETTLED};
use crate::tallies::Tally;
use crate::{alike, cases, matrices, outcomes, parts, piles, tallies};
use std::io::{self, Stdout};

// What the table has where no history fits.
const UNFIT: u8 = 255;

fn value(table: &[u8; 4913], pile: u32) -> u8 {
    if pile < 4913 {
        return table[pile as usize];
    }
    UNFIT
}

fn put(table: &mut [u8; 4913], pile: u32, value: u8) {
    if pile < 4913 {
        table[pile as usize] = value;
    }
}

// The larger of two, where the second one counts only for a pile that fits.
fn larger(a: u8, b: u8) -> u8 {
    if b == UNFIT {
        return a;
    }
    a.max(b)
}

// How long the rest lasts at most after a fetch of a place, over all its records that are not refused.
fn hill(table: &[u8; 4913], c: Case, place: usize) -> u8 {
    let weight = cases::weight(c.n, place);
    let mut pile = c.pile;
    let mut most = 0;
    for _ in 1..cases::base(c.n) {
        pile = pile.wrapping_add(weight);
        most = larger(most, value(table, pile));
    }
    most
}

// The same for a place that is absent; others are not fetched.
fn fetched(table: &[u8; 4913], c: Case, place: usize) -> u8 {
    if c.n <= place {
        return UNFIT;
    }
    if !cases::is_absent(c, place) {
        return UNFIT;
    }
    hill(table, c, place)
}

// One fetch, and the rest of the game where the crew makes it shortest.
fn crew(table: &[u8; 4913], c: Case) -> u8 {
    fetched(table, c, 0)
        .min(fetched(table, c, 1))
        .min(fetched(table, c, 2))
        .wrapping_add(1)
}

// Whether the histories leave some place open.
fn some_open(list: &[u32], pile: Pile) -> bool {
    let all = matrices::fitting(list, pile);
    matrices::answer(list, pile, all, 0) == OPEN
        || matrices::answer(list, pile, all, 1) == OPEN
        || matrices::answer(list, pile, all, 2) == OPEN
}

// How many fetches the game lasts from a pile, by what the table has for the higher ones.
fn lasts(list: &[u32], table: &[u8; 4913], c: Case) -> u8 {
    let pile = alike::whole(c);
    if !matrices::some_fits(list, pile) {
        return UNFIT;
    }
    if some_open(list, pile) {
        return crew(table, c);
    }
    0
}

fn case(n: usize, pile: u32) -> Case {
    Case {
        n,
        pile,
        order: pile % 24,
    }
}

fn fill(list: &[u32], n: usize, table: &mut [u8; 4913]) {
    for pile in (0..cases::piles(n)).rev() {
        let value = lasts(list, table, case(n, pile));
        put(table, pile, value);
    }
}

// The number of fetches told, 0 where the whole is settled.
fn number(told: u64) -> u64 {
    if told == SETTLED {
        return 0;
    }
    told
}

// The game played out after a pile that some history fits, and what is told then.
fn play(list: &[u32], table: &[u8; 4913], c: Case, t: Tally) -> Tally {
    let most = value(table, c.pile);
    if most == UNFIT {
        return t;
    }
    let g = piles::offers(list, c, t);
    let r = g.recovery;
    let pile = g.pile;
    let t = g.tally;
    let expected = most as u64;
    let blocking = matrices::size(matrices::blocking(list, c.n, pile)) as u64;
    let told = number(outcomes::fetching(recovery::to_fetch(r)));
    let came = outcomes::played(minimax::play(r));
    let t = cases::held(t, c, b"play", 0, expected, came);
    let t = cases::held(t, c, b"blocking beside play", 0, expected, blocking);
    cases::held(t, c, b"to fetch beside play", 0, expected, told)
}

fn all_piles(list: &[u32], table: &[u8; 4913], n: usize, tally: Tally) -> Tally {
    let mut t = tally;
    for pile in 0..cases::piles(n) {
        t = play(list, table, case(n, pile), t);
    }
    t
}

fn roster(n: usize, t: Tally) -> Tally {
    let mut list = [0u32; 1024];
    let mut table = [UNFIT; 4913];
    let count = matrices::gather(n, &mut list);
    fill(parts::of_listed(&list, count), n, &mut table);
    all_piles(parts::of_listed(&list, count), &table, n, t)
}

// Rosters of one, two and three places.
pub fn all(to: Stdout) -> io::Result<()> {
    let t = roster(1, tallies::none(to));
    let t = roster(2, t);
    let t = roster(3, t);
    tallies::report(
        b"every acceptable pile of 1 to 3 places of every mix of kinds, and the game of fetches played out from it",
        t,
    )
}
