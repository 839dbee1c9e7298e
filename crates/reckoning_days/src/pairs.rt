// A day beside the second reckoning: a list played event by event, the refusal and the count held after each, and then every record.
use crate::event_lists::{Case, Turn};
use crate::plain::Plain;
use crate::tallies::Tally;
use crate::{event_lists, outcomes, parts, plain, stored};
use days::{Day, Event, Played};
use sets::Place;

#[derive(Clone, Copy)]
pub struct Pair {
    pub played: Played,
    pub plain: Plain,
    pub tally: Tally,
}

fn paired(d: Day, c: Case, tally: Tally) -> Pair {
    let played = Played {
        count: 0,
        answer: Ok(()),
        day: d,
    };
    let plain = plain::begun(c.kind, c.n);
    Pair {
        played,
        plain,
        tally,
    }
}

fn event(e: Turn) -> Event {
    Event {
        kind: e.kind,
        place: Place(e.p),
        other: Place(e.q),
    }
}

// Event i of a list, after those before it.
fn step(c: Case, g: Pair, i: usize) -> Pair {
    let e = event_lists::event(c, i);
    let old = g.played;
    let t = g.tally;
    let plain = plain::step(g.plain, e);
    let played = days::step(old, event(e));
    let t = event_lists::held(
        t,
        c,
        b"refusal at event",
        i,
        plain.refusal as u64,
        outcomes::playing(played.answer),
    );
    let tally = event_lists::held(t, c, b"count at event", i, plain.count, played.count as u64);
    Pair {
        played,
        plain,
        tally,
    }
}

// A list, up to its first refusal.
pub fn play(d: Day, c: Case, tally: Tally) -> Pair {
    let mut g = paired(d, c, tally);
    for i in 0..c.length {
        g = step(c, g, i);
    }
    g
}

// Event i by itself: a refusal before it is passed over.
fn happen(c: Case, g: Pair, i: usize) -> Pair {
    let e = event_lists::event(c, i);
    let old = g.played;
    let t = g.tally;
    let day = old.day;
    let plain = plain::happen(g.plain, e);
    let got = days::happen(day, event(e));
    let answer = got.answer;
    let day = got.day;
    let tally = event_lists::held(
        t,
        c,
        b"refusal by itself at event",
        i,
        plain.refusal as u64,
        outcomes::happening(answer),
    );
    let played = Played {
        count: 0,
        answer: answer.map_err(|refusal| refusal as u8),
        day,
    };
    Pair {
        played,
        plain,
        tally,
    }
}

// Every event of a list, those after a refused one too.
pub fn happens(d: Day, c: Case, tally: Tally) -> Pair {
    let mut g = paired(d, c, tally);
    for i in 0..c.length {
        g = happen(c, g, i);
    }
    g
}

// The record of a place as the second reckoning has it: 12, 14, or where it ends, from position 20 on.
fn record(made: &mut [u8; 64], d: Plain, place: usize) -> u64 {
    if d.n <= place {
        return 12;
    }
    if !plain::is_stopped(d, place) {
        return 14;
    }
    let length = stored::record(made, d.kind, d.n, place, plain::row(d, place));
    20 + (length % 64) as u64
}

// How many bytes were to be written.
fn length(expected: u64) -> usize {
    expected.saturating_sub(20) as usize
}

fn write(c: Case, d: Day, plain: Plain, t: Tally, place: usize) -> Tally {
    let mut made = [0u8; 64];
    let mut out = [0xaau8; 64];
    let expected = record(&mut made, plain, place);
    let got = days::write(d, Place(place), &mut out, 20);
    let t = event_lists::held(
        t,
        c,
        b"write, place",
        place,
        expected,
        outcomes::writing(got),
    );
    let same = stored::has_only(&out, 20, parts::of_buffer(&made, length(expected)));
    event_lists::held(t, c, b"written, place", place, 1, outcomes::truth(same))
}

// The record of every place, and of one off the roster.
pub fn writes(c: Case, g: Pair) -> Tally {
    let played = g.played;
    let day = played.day;
    let plain = g.plain;
    let mut t = g.tally;
    for place in 0..4 {
        t = write(c, day, plain, t, place);
    }
    t
}
