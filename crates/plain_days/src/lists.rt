// Lists of events as numbers. The alphabet of a roster of n has a stop and hearings for each place from 0 to n, so that one is off the
// roster, and one event of another kind. A list is a number in the alphabet's size, the first event its highest digit.
ghost use Rattle.std.specs.Prelude.{◌<◌, ◌≤◌};

use std::io::{self, Stdout};
use trials::tallies::Tally;
use trials::{say, tallies};

// A day's kind and roster, and a list.
#[derive(Clone, Copy)]
pub struct Case {
    pub kind: u8,
    pub n: usize,
    pub length: usize,
    pub list: u64,
}

// An event: kind 1 stops p, kind 2 has p hear of q.
#[derive(Clone, Copy)]
pub struct Turn {
    pub kind: u8,
    pub p: usize,
    pub q: usize,
}

fn of_two(length: usize) -> u64
    ensures { (0 < result) × (result ≤ 4294967296) }
{
    match length {
        0 => 1,
        1 => 13,
        2 => 169,
        3 => 2197,
        4 => 28561,
        5 => 371293,
        6 => 4826809,
        _ => 62748517,
    }
}

fn of_three(length: usize) -> u64
    ensures { (0 < result) × (result ≤ 4294967296) }
{
    match length {
        0 => 1,
        1 => 21,
        2 => 441,
        3 => 9261,
        4 => 194481,
        5 => 4084101,
        6 => 85766121,
        _ => 1801088541,
    }
}

// How many lists of a length (up to 7) there are.
pub fn lists(n: usize, length: usize) -> u64
    ensures { (0 < result) × (result ≤ 4294967296) }
{
    if n == 2 {
        return of_two(length);
    }
    of_three(length)
}

// How many lists have the same first i + 1 events.
pub fn alike(c: Case, i: usize) -> u64
    ensures { (0 < result) × (result ≤ 4294967296) }
{
    if i < c.length {
        return lists(c.n, c.length - i - 1);
    }
    1
}

fn hearing(place: u8, other: u8) -> Turn {
    Turn {
        kind: 2,
        p: place as usize,
        q: other as usize,
    }
}

fn stop(place: u8) -> Turn {
    Turn {
        kind: 1,
        p: place as usize,
        q: 9,
    }
}

// Event x of the alphabet of two.
fn among_two(x: u8) -> Turn {
    match x {
        0..=2 => stop(x),
        3..=11 => hearing((x - 3) / 3, x % 3),
        _ => Turn {
            kind: 0,
            p: 2,
            q: 0,
        },
    }
}

// Event x of the alphabet of three.
fn among_three(x: u8) -> Turn {
    match x {
        0..=3 => stop(x),
        4..=19 => hearing((x - 4) / 4, x % 4),
        _ => Turn {
            kind: 3,
            p: 0,
            q: 1,
        },
    }
}

// Event i of a list.
pub fn event(c: Case, i: usize) -> Turn {
    let digits = c.list / alike(c, i);
    if c.n == 2 {
        return among_two((digits % 13) as u8);
    }
    among_three((digits % 21) as u8)
}

fn say_event(to: Stdout, e: Turn) -> io::Result<()> {
    print!(to; " {}:{}:{}", e.kind, e.p, e.q)
}

fn say_events(to: Stdout, c: Case) -> io::Result<()> {
    for i in 0..c.length {
        say_event(to, event(c, i))?;
    }
    Ok(())
}

fn say_case(to: Stdout, c: Case) -> io::Result<()> {
    print!(to; "kind {} of {}, events", c.kind, c.n)?;
    say_events(to, c)
}

fn say_held(
    to: Stdout,
    c: Case,
    what: &[u8],
    about: usize,
    expected: u64,
    came: u64,
) -> io::Result<()> {
    say_case(to, c)?;
    say::text(to, b", ")?;
    say::text(to, what)?;
    print!(to; " {about}")?;
    tallies::say_both(to, expected, came)
}

// One outcome about something (an event's position, a place) in this list.
pub fn held(t: Tally, c: Case, what: &[u8], about: usize, expected: u64, came: u64) -> Tally {
    if tallies::is_first(t, expected, came) {
        let _ = say_held(t.to, c, what, about, expected, came);
    }
    tallies::counted(t, expected, came)
}
