// The records of a day on which all have stopped, brought back in every order.
ghost use Rattle.std.specs.Prelude.{◌≤◌};

use crate::event_lists::Case;
use crate::pairs::Pair;
use crate::plain::Plain;
use crate::tallies::Tally;
use crate::{event_lists, outcomes, parts, plain};
use days::Day;
use recovery::{Offered, Recovery};
use sets::Place;

#[derive(Clone, Copy)]
struct Back {
    recovery: Recovery,
    tally: Tally,
}

// How many orders the records have.
fn orders(n: usize) -> usize
    ensures { result ≤ 6 }
{
    match n {
        2 => 2,
        _ => 6,
    }
}

// The place whose record comes as the i-th: upwards from some place on, or downwards.
fn turn(n: usize, order: usize, i: usize) -> usize {
    if n == 2 {
        return (order % 2 + i % 2) % 2;
    }
    if order % 2 == 0 {
        return (order / 2 % 3 + i % 3) % 3;
    }
    (order / 2 % 3 + 3 - i % 3) % 3
}

// Offers the record that the day writes for a place.
fn offer(d: Day, r: Recovery, place: usize) -> Offered {
    let mut out = [0u8; 64];
    let got = days::write(d, Place(place), &mut out, 0);
    recovery::offer(r, parts::of_buffer(&out, got.unwrap_or(0)))
}

// What may be answered for a place: what is true of the day, or open while one is not back.
fn answer(d: Plain, place: usize, came: u64, back: usize) -> u64 {
    if d.n <= back {
        return plain::last(d, place);
    }
    if came == outcomes::OPEN {
        return outcomes::OPEN;
    }
    plain::last(d, place)
}

fn ask(c: Case, r: Recovery, d: Plain, t: Tally, place: usize, back: usize) -> Tally {
    let got = recovery::ask(r, Place(place));
    let came = outcomes::asked(got);
    let expected = answer(d, place, came, back);
    event_lists::held(t, c, b"answer, place", place, expected, came)
}

fn asks(c: Case, r: Recovery, d: Plain, tally: Tally, back: usize) -> Tally {
    let mut t = tally;
    for place in 0..c.n {
        t = ask(c, r, d, t, place, back);
    }
    t
}

// One more record is taken, and repeated when it is offered again; then every answer, so many being back.
fn bring(c: Case, d: Day, plain: Plain, g: Back, order: usize, back: usize) -> Back {
    let place = turn(c.n, order, back);
    let old = g.recovery;
    let t = g.tally;
    let got = offer(d, old, place);
    let reply = got.answer;
    let recovery = got.recovery;
    let t = event_lists::held(
        t,
        c,
        b"offer, place",
        place,
        outcomes::TAKEN,
        outcomes::reply(reply),
    );
    let got = offer(d, recovery, place);
    let reply = got.answer;
    let recovery = got.recovery;
    let t = event_lists::held(
        t,
        c,
        b"offer again, place",
        place,
        outcomes::REPEATED,
        outcomes::reply(reply),
    );
    let tally = asks(c, recovery, plain, t, back);
    Back { recovery, tally }
}

// All records in one order, to a recovery with nobody back.
fn in_order(c: Case, d: Day, plain: Plain, r: Recovery, tally: Tally, order: usize) -> Tally {
    let mut g = Back { recovery: r, tally };
    for back in 1..=c.n {
        g = bring(c, d, plain, g, order, back);
    }
    g.tally
}

// In every order, where all have stopped.
pub fn in_every_order(c: Case, g: Pair, r: Recovery, tally: Tally) -> Tally {
    let played = g.played;
    let day = played.day;
    let plain = g.plain;
    let mut t = tally;
    for order in 0..orders(c.n) {
        t = in_order(c, day, plain, r, t, order);
    }
    t
}
