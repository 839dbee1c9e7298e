// Piles of small rosters as numbers. A place's digit is 0 where it is absent, 1 and twice its mourned set where its record is full, and
// one more where that is short; a set is the sum of its bits. The base for n places is thus 2 to the power n + 1, plus 1.
ghost use Rattle.std.specs.Prelude.{◌<◌, ◌≤◌};

use crate::tallies::Tally;
use crate::{outcomes, say, tallies};
use std::io::{self, Stdout};

// A pile and an order of its records.
#[derive(Clone, Copy)]
pub struct Case {
    pub n: usize,
    pub pile: u32,
    pub order: u32,
}

// How many digits a place may have.
pub fn base(n: usize) -> u32
    ensures { (0 < result) × (result ≤ 33) }
{
    match n {
        1 => 5,
        2 => 9,
        3 => 17,
        _ => 33,
    }
}

// How many piles there are.
pub fn piles(n: usize) -> u32
    ensures { result ≤ 1185921 }
{
    match n {
        1 => 5,
        2 => 81,
        3 => 4913,
        _ => 1185921,
    }
}

// How many orders n records have.
pub fn orders(n: usize) -> u32
    ensures { result ≤ 24 }
{
    match n {
        1 => 1,
        2 => 2,
        3 => 6,
        _ => 24,
    }
}

// How much a pile's number grows by a place's digit 1, on a roster of at most three.
pub fn weight(n: usize, place: usize) -> u32 {
    match place {
        0 => 1,
        1 => base(n),
        _ => 289,
    }
}

// The digit of a place.
fn digit(c: Case, place: usize) -> u32 {
    let pile = c.pile;
    let b = base(c.n);
    match place {
        0 => pile % b,
        1 => pile / b % b,
        2 => pile / b / b % b,
        _ => pile / b / b / b % b,
    }
}

// Whether a place has no record.
pub fn is_absent(c: Case, place: usize) -> bool {
    digit(c, place) == 0
}

// The mourned set of a place's record.
pub fn mourned(c: Case, place: usize) -> u32 {
    let d = digit(c, place);
    if d == 0 {
        return 0;
    }
    (d - 1) / 2
}

// The kind of a place's record.
pub fn kind(c: Case, place: usize) -> u8 {
    if digit(c, place) % 2 == 1 {
        return 1;
    }
    2
}

// Full for short, and short for full.
pub fn other(kind: u8) -> u8 {
    if kind == 1 {
        return 2;
    }
    1
}

// Whether a place has no record of this kind.
fn has_none(c: Case, place: usize, of: u8) -> bool {
    if is_absent(c, place) {
        return true;
    }
    kind(c, place) != of
}

// Whether no record is of this kind.
pub fn lacks(c: Case, of: u8) -> bool {
    has_none(c, 0, of) && has_none(c, 1, of) && has_none(c, 2, of) && has_none(c, 3, of)
}

// An order, four bits a place, the first lowest, with one more place put in at a position.
fn inserted(order: u32, place: u32, at: u32) -> u32 {
    match at {
        0 => place | order << 4,
        1 => (order & 0xf) | place << 4 | (order & 0xff0) << 4,
        2 => (order & 0xff) | place << 8 | (order & 0xf00) << 4,
        _ => (order & 0xfff) | place << 12,
    }
}

// Order number k of four places. Those below n! have the places from n on, which are absent, at the front.
fn order(k: u32) -> u32 {
    inserted(inserted(inserted(0, 1, k % 2), 2, k / 2 % 3), 3, k / 6 % 4)
}

// The place whose record is offered at a turn.
pub fn turn(c: Case, i: usize) -> usize {
    let places = order(c.order);
    match i {
        0 => (places % 4) as usize,
        1 => (places / 16 % 4) as usize,
        2 => (places / 256 % 4) as usize,
        _ => (places / 4096 % 4) as usize,
    }
}

// A record as its kind, its place and its mourned set.
pub fn say_parts(to: Stdout, kind: u8, place: usize, mourned: u32) -> io::Result<()> {
    print!(to; " {kind}:{place}:{mourned}")
}

// The record of a place, nothing where it is absent.
fn say_record(to: Stdout, c: Case, place: usize) -> io::Result<()> {
    if is_absent(c, place) {
        return Ok(());
    }
    say_parts(to, kind(c, place), place, mourned(c, place))
}

pub fn say_case(to: Stdout, c: Case) -> io::Result<()> {
    print!(to; "roster of {}, records", c.n)?;
    say_record(to, c, turn(c, 0))?;
    say_record(to, c, turn(c, 1))?;
    say_record(to, c, turn(c, 2))?;
    say_record(to, c, turn(c, 3))
}

fn say_held(
    to: Stdout,
    c: Case,
    call: &[u8],
    about: u64,
    expected: u64,
    came: u64,
) -> io::Result<()> {
    say_case(to, c)?;
    say::text(to, b", ")?;
    say::text(to, call)?;
    print!(to; " {about}")?;
    tallies::say_both(to, expected, came)
}

// One outcome of a call about something (a place, a matrix) after these records.
pub fn held(t: Tally, c: Case, call: &[u8], about: u64, expected: u64, came: u64) -> Tally {
    if tallies::is_first(t, expected, came) {
        let _ = say_held(t.to, c, call, about, expected, came);
    }
    tallies::counted(t, expected, came)
}
