// Every list of up to three givings to a group of two places, and after each what is found and what a record meets.
ghost use Rattle.std.specs.Prelude.{◌<◌, ◌≤◌};

use crate::swaps::{Boards, Few};
use crate::tallies::Tally;
use crate::{alike, outcomes, parts, say, stored, swaps, tallies};
use recovery::Recovery;
use serials::Serial;
use sets::Place;
use std::io::{self, Stdout};

// A list of givings: a number in base 15, the first giving lowest; a digit is 5 times the place and one of the five serials.
#[derive(Clone, Copy)]
struct Case {
    n: usize,
    list: u32,
}

// A recovery beside its second serials.
#[derive(Clone, Copy)]
struct Stand {
    recovery: Recovery,
    boards: Boards,
    tally: Tally,
}

// How many lists of n givings there are.
fn lists(n: usize) -> u32
    ensures { result ≤ 3375 }
{
    match n {
        0 => 1,
        1 => 15,
        2 => 225,
        _ => 3375,
    }
}

fn digit(c: Case, i: usize) -> u32
    ensures { result < 15 }
{
    match i {
        0 => c.list % 15,
        1 => c.list / 15 % 15,
        _ => c.list / 225 % 15,
    }
}

fn place(c: Case, i: usize) -> usize {
    (digit(c, i) / 5) as usize
}

fn serial(c: Case, i: usize) -> u32 {
    match digit(c, i) % 5 {
        0 => 0,
        1 => 1,
        2 => 2,
        3 => 8,
        _ => 9,
    }
}

fn few(n: usize, a: u32, b: u32) -> Few {
    Few { n, a, b, c: 0 }
}

// Six rosters: the group's, the same turned, a shorter one, two with a serial that may be a second one, and a longer one.
fn roster(k: u32) -> Few {
    match k % 6 {
        0 => few(2, 1, 2),
        1 => few(2, 2, 1),
        2 => few(1, 1, 0),
        3 => few(2, 1, 8),
        4 => few(2, 8, 2),
        _ => Few {
            n: 3,
            a: 1,
            b: 2,
            c: 8,
        },
    }
}

// Six serials of records.
fn named(k: u32) -> u32 {
    match k % 6 {
        4 => 8,
        5 => 9,
        _ => k % 6,
    }
}

// The parts of record number k: one of 6 rosters, 6 own serials, 43 lists of up to two mourned serials, and a kind.
fn own(k: u32) -> u32 {
    named(k / 6)
}

fn mourned(k: u32) -> Few {
    let m = k / 36 % 43;
    if m == 0 {
        return few(0, 0, 0);
    }
    if m < 7 {
        return few(1, named(m - 1), 0);
    }
    few(2, named((m - 7) / 6), named(m - 7))
}

fn kind(k: u32) -> u8 {
    if k < 1548 {
        return 1;
    }
    2
}

fn say_few(to: Stdout, list: Few) -> io::Result<()> {
    if 0 < list.n {
        print!(to; " {}", list.a)?;
    }
    if 1 < list.n {
        print!(to; " {}", list.b)?;
    }
    if 2 < list.n {
        print!(to; " {}", list.c)?;
    }
    Ok(())
}

fn say_giving(to: Stdout, c: Case, i: usize) -> io::Result<()> {
    if c.n <= i {
        return Ok(());
    }
    print!(to; " {}:{}", place(c, i), serial(c, i))
}

fn say_case(to: Stdout, c: Case) -> io::Result<()> {
    say::text(to, b"given PLACE:SERIAL")?;
    say_giving(to, c, 0)?;
    say_giving(to, c, 1)?;
    say_giving(to, c, 2)
}

fn say_held(
    to: Stdout,
    c: Case,
    call: &[u8],
    about: u64,
    expected: u64,
    came: u64,
) -> io::Result<()> {
    say_case(to, c)?;
    say::text(to, b", ")?;
    say::text(to, call)?;
    print!(to; " {about}")?;
    tallies::say_both(to, expected, came)
}

// One outcome of a call about something (a giving, a serial) after these givings.
fn held(t: Tally, c: Case, call: &[u8], about: u64, expected: u64, came: u64) -> Tally {
    if tallies::is_first(t, expected, came) {
        let _ = say_held(t.to, c, call, about, expected, came);
    }
    tallies::counted(t, expected, came)
}

fn say_record(to: Stdout, c: Case, k: u32, expected: u64, came: u64) -> io::Result<()> {
    say_case(to, c)?;
    print!(to; ", offer of kind {}, roster", kind(k))?;
    say_few(to, roster(k))?;
    print!(to; ", own {}, mourned", own(k))?;
    say_few(to, mourned(k))?;
    tallies::say_both(to, expected, came)
}

// The outcome of offering record number k.
fn held_record(t: Tally, c: Case, k: u32, expected: u64, came: u64) -> Tally {
    if tallies::is_first(t, expected, came) {
        let _ = say_record(t.to, c, k, expected, came);
    }
    tallies::counted(t, expected, came)
}

fn opened(c: Case, t: Tally) -> Stand {
    let list = [1u32, 2];
    let got = recovery::open(&list);
    let answer = got.answer;
    let recovery = got.recovery;
    let boards = swaps::no_boards();
    let came = outcomes::opening(answer);
    let tally = held(t, c, b"open", 2, outcomes::OPENED, came);
    Stand {
        recovery,
        boards,
        tally,
    }
}

// One giving: its answer, and what it leaves.
fn give(c: Case, s: Stand, i: usize) -> Stand {
    let old = s.recovery;
    let b = s.boards;
    let t = s.tally;
    let p = place(c, i);
    let x = serial(c, i);
    let expected = swaps::given(b, p, x);
    let got = recovery::give(old, Place(p), Serial(x));
    let answer = got.answer;
    let recovery = got.recovery;
    let came = outcomes::giving(answer);
    let t = held(t, c, b"giving number", i as u64, expected, came);
    let equal = alike::left(old, p, x, expected, recovery);
    let tally = held(t, c, b"left by giving number", i as u64, 1, equal);
    let boards = swaps::after(b, p, x, expected);
    Stand {
        recovery,
        boards,
        tally,
    }
}

// All givings of a list.
fn gives(c: Case, t: Tally) -> Stand {
    let mut s = opened(c, t);
    for i in 0..c.n {
        s = give(c, s, i);
    }
    s
}

fn find(c: Case, r: Recovery, b: Boards, t: Tally, x: u32) -> Tally {
    let got = recovery::find(r, Serial(x));
    let came = outcomes::found(got);
    held(t, c, b"find", x as u64, swaps::found(b, x), came)
}

// Finds the serials 0 to 10.
fn finds(c: Case, r: Recovery, b: Boards, tally: Tally) -> Tally {
    let mut t = tally;
    for x in 0..11 {
        t = find(c, r, b, t, x);
    }
    t
}

// Lays record number k, and says how long it is.
fn lay(k: u32, out: &mut [u8; 1100]) -> usize
    ensures { result ≤ 1100 }
{
    let of = roster(k);
    let heard = mourned(k);
    let serials = [of.a, of.b, of.c];
    let named = [heard.a, heard.b, heard.c];
    stored::lay(
        kind(k),
        own(k),
        stored::byte(of.n),
        parts::numbers(&serials, of.n),
        stored::byte(heard.n),
        parts::numbers(&named, heard.n),
        out,
    )
}

fn offer(c: Case, r: Recovery, b: Boards, t: Tally, k: u32) -> Tally {
    let mut bytes = [0u8; 1100];
    let length = lay(k, &mut bytes);
    let got = recovery::offer(r, parts::of_record(&bytes, length));
    let answer = got.answer;
    let expected = swaps::offered(b, roster(k), own(k), mourned(k));
    held_record(t, c, k, expected, outcomes::reply(answer))
}

// Offers every record in both kinds.
fn offers(c: Case, r: Recovery, b: Boards, tally: Tally) -> Tally {
    let mut t = tally;
    for k in 0..3096 {
        t = offer(c, r, b, t, k);
    }
    t
}

fn played(c: Case, t: Tally) -> Tally {
    let s = gives(c, t);
    let r = s.recovery;
    let b = s.boards;
    let t = s.tally;
    let t = finds(c, r, b, t);
    offers(c, r, b, t)
}

// Every list of n givings.
fn of_length(n: usize, tally: Tally) -> Tally {
    let mut t = tally;
    for list in 0..lists(n) {
        t = played(Case { n, list }, t);
    }
    t
}

pub fn all(to: Stdout) -> io::Result<()> {
    let t = of_length(0, tallies::none(to));
    let t = of_length(1, t);
    let t = of_length(2, t);
    tallies::report(
        b"every list of up to 3 givings to 2 places, and after it every serial found and every record of both kinds offered",
        of_length(3, t),
    )
}
