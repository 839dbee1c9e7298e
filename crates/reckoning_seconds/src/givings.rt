// Every list of up to three givings to a group of two places, and after each what is found and what a record meets.
use piles::alike;
use recovery::Recovery;
use serials::Serial;
use sets::Place;
use std::io::{self, Stdout};
use swaps::cases::Case;
use swaps::{Boards, cases};
use trials::tallies::Tally;
use trials::{outcomes, parts, tallies};

// A recovery beside its second serials.
#[derive(Clone, Copy)]
struct Stand {
    recovery: Recovery,
    boards: Boards,
    tally: Tally,
}

fn opened(c: Case, t: Tally) -> Stand {
    let list = [1u32, 2];
    let got = recovery::open(&list);
    let answer = got.answer;
    let recovery = got.recovery;
    let boards = swaps::no_boards();
    let came = outcomes::opening(answer);
    let tally = cases::held(t, c, b"open", 2, outcomes::OPENED, came);
    Stand {
        recovery,
        boards,
        tally,
    }
}

// One giving: its answer, and what it leaves.
fn give(c: Case, s: Stand, i: usize) -> Stand {
    let old = s.recovery;
    let b = s.boards;
    let t = s.tally;
    let p = cases::place(c, i);
    let x = cases::serial(c, i);
    let expected = swaps::given(b, p, x);
    let got = recovery::give(old, Place(p), Serial(x));
    let answer = got.answer;
    let recovery = got.recovery;
    let came = outcomes::giving(answer);
    let t = cases::held(t, c, b"giving number", i as u64, expected, came);
    let equal = alike::left(old, p, x, expected, recovery);
    let tally = cases::held(t, c, b"left by giving number", i as u64, 1, equal);
    let boards = swaps::after(b, p, x, expected);
    Stand {
        recovery,
        boards,
        tally,
    }
}

// All givings of a list.
fn gives(c: Case, t: Tally) -> Stand {
    let mut s = opened(c, t);
    for i in 0..c.n {
        s = give(c, s, i);
    }
    s
}

fn find(c: Case, r: Recovery, b: Boards, t: Tally, x: u32) -> Tally {
    let got = recovery::find(r, Serial(x));
    let came = outcomes::found(got);
    cases::held(t, c, b"find", x as u64, swaps::found(b, x), came)
}

// Finds the serials 0 to 10.
fn finds(c: Case, r: Recovery, b: Boards, tally: Tally) -> Tally {
    let mut t = tally;
    for x in 0..11 {
        t = find(c, r, b, t, x);
    }
    t
}

fn offer(c: Case, r: Recovery, b: Boards, t: Tally, k: u32) -> Tally {
    let mut bytes = [0u8; 1100];
    let length = cases::lay(k, &mut bytes);
    let got = recovery::offer(r, parts::of_record(&bytes, length));
    let answer = got.answer;
    let expected = swaps::offered(b, cases::roster(k), cases::own(k), cases::mourned(k));
    cases::held_record(t, c, k, expected, outcomes::reply(answer))
}

// Offers every record in both kinds.
fn offers(c: Case, r: Recovery, b: Boards, tally: Tally) -> Tally {
    let mut t = tally;
    for k in 0..3096 {
        t = offer(c, r, b, t, k);
    }
    t
}

fn played(c: Case, t: Tally) -> Tally {
    let s = gives(c, t);
    let r = s.recovery;
    let b = s.boards;
    let t = s.tally;
    let t = finds(c, r, b, t);
    offers(c, r, b, t)
}

// Every list of n givings.
fn of_length(n: usize, tally: Tally) -> Tally {
    let mut t = tally;
    for list in 0..cases::lists(n) {
        t = played(Case { n, list }, t);
    }
    t
}

pub fn all(to: Stdout) -> io::Result<()> {
    let t = of_length(0, tallies::none(to));
    let t = of_length(1, t);
    let t = of_length(2, t);
    tallies::report(
        b"every list of up to 3 givings to 2 places, and after it every serial found and every record of both kinds offered",
        of_length(3, t),
    )
}
