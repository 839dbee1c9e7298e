// A pile whose places are given second serials after it: every record, each of its serials a first or a second one, gets the answer
// that the pile gives, and leaves and writes what the same record in first serials does.
use matrices::cases::Case;
use matrices::{Pile, cases};
use piles::alike;
use recovery::{Offered, Recovery};
use serials::Serial;
use sets::Place;
use std::io::{self, Stdout};
use trials::tallies::Tally;
use trials::{outcomes, parts, say, stored, tallies, written};

// A record: its kind, its place, its mourned set, whether its own serial is the second one, and which of the mourned ones are.
#[derive(Clone, Copy)]
struct Mixed {
    kind: u8,
    place: usize,
    mourned: u32,
    second: bool,
    swapped: u32,
}

// A recovery after a giving.
#[derive(Clone, Copy)]
struct Given {
    recovery: Recovery,
    tally: Tally,
}

fn say_held(
    to: Stdout,
    c: Case,
    x: Mixed,
    call: &[u8],
    expected: u64,
    came: u64,
) -> io::Result<()> {
    cases::say_case(to, c)?;
    say::text(to, b", ")?;
    say::text(to, call)?;
    cases::say_parts(to, x.kind, x.place, x.mourned)?;
    let own = outcomes::truth(x.second);
    print!(to; ", in second serials own {own} and mourned {}", x.swapped)?;
    tallies::say_both(to, expected, came)
}

// One outcome of a record offered after a pile and its givings.
fn held(t: Tally, c: Case, x: Mixed, call: &[u8], expected: u64, came: u64) -> Tally {
    if tallies::is_first(t, expected, came) {
        let _ = say_held(t.to, c, x, call, expected, came);
    }
    tallies::counted(t, expected, came)
}

fn give(c: Case, g: Given, place: usize) -> Given {
    let old = g.recovery;
    let t = g.tally;
    let x = stored::name_of(place, true);
    let got = recovery::give(old, Place(place), Serial(x));
    let answer = got.answer;
    let recovery = got.recovery;
    let p = place as u64;
    let came = outcomes::giving(answer);
    let t = cases::held(t, c, b"give", p, outcomes::GIVEN, came);
    let equal = alike::left(old, place, x, outcomes::GIVEN, recovery);
    let tally = cases::held(t, c, b"left by give", p, 1, equal);
    Given { recovery, tally }
}

// Each place is given its second serial.
fn gives(c: Case, r: Recovery, t: Tally) -> Given {
    let mut g = Given {
        recovery: r,
        tally: t,
    };
    for place in 0..c.n {
        g = give(c, g, place);
    }
    g
}

// Offers a record so mixed.
fn offer(c: Case, r: Recovery, x: Mixed) -> Offered {
    let mut bytes = [0u8; 1100];
    let length = stored::mixed(
        x.kind, c.n, x.place, x.second, x.mourned, x.swapped, &mut bytes,
    );
    recovery::offer(r, parts::of_record(&bytes, length))
}

// What the pile says of a record: repeated or 10 where its place is back, else taken or 11.
fn answer(list: &[u32], pile: Pile, x: Mixed) -> u64 {
    if !matrices::is_back(pile, x.place) {
        return piles::offered(list, matrices::with(pile, x.kind, x.place, x.mourned));
    }
    if matrices::kind(pile, x.place) != x.kind {
        return 10;
    }
    if matrices::row(pile.rows, x.place) == x.mourned {
        return outcomes::REPEATED;
    }
    10
}

// The record is written in first serials.
fn write(c: Case, r: Recovery, t: Tally, x: Mixed) -> Tally {
    let n = c.n;
    let serials = stored::serials();
    let roster = parts::of_six(&serials, n);
    let mut made = [0u8; 1100];
    let mut out = [0xaau8; 80];
    let length = stored::record(x.kind, x.place, roster, x.mourned, &mut made);
    let got = recovery::write(r, Place(x.place), &mut out, 20);
    let end = 20 + length as u64;
    let t = held(t, c, x, b"write after", end, outcomes::writing(got));
    let same = written::has_only(&out, 20, parts::of_record(&made, length));
    held(t, c, x, b"written after", 1, outcomes::truth(same))
}

// A record so mixed beside the same in first serials.
fn beside(list: &[u32], c: Case, r: Recovery, pile: Pile, t: Tally, x: Mixed) -> Tally {
    let expected = answer(list, pile, x);
    let got = offer(c, r, x);
    let reply = got.answer;
    let left = got.recovery;
    let t = held(t, c, x, b"offer", expected, outcomes::reply(reply));
    let first = piles::offer(c.n, r, x.kind, x.place, x.mourned);
    let plain = first.recovery;
    let equal = outcomes::truth(alike::same(plain, left));
    let t = held(t, c, x, b"left by first serials as by", 1, equal);
    if expected != outcomes::TAKEN && expected != outcomes::REPEATED {
        return t;
    }
    write(c, left, t, x)
}

// Record number k: a place, a mourned set, which of it are second serials, whether the own one is, and a kind.
fn record(k: u32) -> Mixed {
    Mixed {
        kind: (1 + k / 512 % 2) as u8,
        place: (k % 4) as usize,
        mourned: k / 4 % 8,
        second: k / 256 % 2 == 1,
        swapped: k / 32 % 8,
    }
}

// Whether a roster has these places, and the second serials are those of mourned ones.
fn is_of(n: usize, x: Mixed) -> bool {
    if n <= x.place {
        return false;
    }
    if x.mourned & matrices::all_places(n) != x.mourned {
        return false;
    }
    x.swapped & x.mourned == x.swapped
}

fn one(list: &[u32], c: Case, r: Recovery, pile: Pile, t: Tally, k: u32) -> Tally {
    let x = record(k);
    if !is_of(c.n, x) {
        return t;
    }
    beside(list, c, r, pile, t, x)
}

// Every record of the roster, in both kinds and in every mix of its serials.
fn records(list: &[u32], c: Case, r: Recovery, pile: Pile, tally: Tally) -> Tally {
    let mut t = tally;
    for k in 0..1024 {
        t = one(list, c, r, pile, t, k);
    }
    t
}

pub fn played(list: &[u32], c: Case, t: Tally) -> Tally {
    let g = piles::offers(list, c, t);
    let r = g.recovery;
    let pile = g.pile;
    let t = g.tally;
    let given = gives(c, r, t);
    let r = given.recovery;
    let t = given.tally;
    records(list, c, r, pile, t)
}
