// Cases of opening, and what a caller meets beyond the lists.
use crate::outcomes::OPENED;
use crate::tallies::Tally;
use crate::{outcomes, parts, stored, tallies};
use days::{Day, Event};
use sets::Place;

const LARGEST: usize = 18446744073709551615;

fn open(t: Tally, name: &[u8], kind: u8, list: &[u32], expected: u64) -> Tally {
    let got = days::open(kind, list);
    let answer = got.answer;
    tallies::named(t, name, expected, outcomes::opening(answer))
}

// The serials 65536, 131072 and so on.
fn fill(list: &mut [u32; 130]) {
    let mut x = 0u32;
    for serial in list.iter_mut() {
        x = x.wrapping_add(65536);
        *serial = x;
    }
}

fn counts(t: Tally) -> Tally {
    let mut many = [0u32; 130];
    fill(&mut many);
    let t = open(t, b"opening kind 0, none", 0, parts::of_many(&many, 0), 2);
    let t = open(t, b"opening kind 0, one", 0, parts::of_many(&many, 1), 2);
    let t = open(t, b"opening kind 3, 129", 3, parts::of_many(&many, 129), 2);
    let t = open(
        t,
        b"opening kind 255, one",
        255,
        parts::of_many(&many, 1),
        2,
    );
    let t = open(t, b"opening none", 1, parts::of_many(&many, 0), 3);
    let t = open(t, b"opening none, short", 2, parts::of_many(&many, 0), 3);
    let t = open(t, b"opening 129", 1, parts::of_many(&many, 129), 3);
    let t = open(t, b"opening 129, short", 2, parts::of_many(&many, 129), 3);
    let t = open(t, b"opening one", 1, parts::of_many(&many, 1), OPENED);
    let t = open(t, b"opening 128", 1, parts::of_many(&many, 128), OPENED);
    open(
        t,
        b"opening 128, short",
        2,
        parts::of_many(&many, 128),
        OPENED,
    )
}

fn serials(t: Tally) -> Tally {
    let zeros = [0u32; 129];
    let twice = [7u32, 7, 0];
    let apart = [7u32, 8, 7];
    let t = open(t, b"opening kind 3, 129 zeros", 3, &zeros, 2);
    let t = open(t, b"opening 129 zeros", 1, &zeros, 3);
    let t = open(t, b"opening 128 zeros", 1, &zeros[..128], 4);
    let t = open(t, b"opening 0", 2, &twice[2..], 4);
    let t = open(t, b"opening 7 7 0", 1, &twice, 4);
    let t = open(t, b"opening 7 7 0, short", 2, &twice, 4);
    let t = open(t, b"opening kind 0, 7 7 0", 0, &twice, 2);
    let t = open(t, b"opening 7 7", 1, &twice[..2], 5);
    let t = open(t, b"opening 7 8 7", 2, &apart, 5);
    open(t, b"opening 7 8", 2, &apart[..2], OPENED)
}

fn happen(t: Tally, d: Day, name: &[u8], kind: u8, p: usize, q: usize, expected: u64) -> Tally {
    let e = Event {
        kind,
        place: Place(p),
        other: Place(q),
    };
    let got = days::happen(d, e);
    tallies::named(t, name, expected, outcomes::happening(got.answer))
}

// Writes into the first bytes of a buffer; nothing is touched unless it is written.
fn write(
    tally: Tally,
    d: Day,
    name: &[u8],
    place: usize,
    length: usize,
    at: usize,
    expected: u64,
) -> Tally {
    let mut out = [0xaau8; 64];
    let got = days::write(d, Place(place), parts::lent(&mut out, length), at);
    let came = outcomes::writing(got);
    let t = tallies::named(tally, name, expected, came);
    if 15 < came {
        return t;
    }
    let same = stored::has_only(&out, 0, &[]);
    tallies::named(t, name, 1, outcomes::truth(same))
}

// A day whose opening was refused has no places.
fn of_none(t: Tally) -> Tally {
    let got = days::open(0, &[7, 8]);
    let d = got.day;
    let t = happen(t, d, b"no day, stop 0", 1, 0, 0, 12);
    let t = happen(t, d, b"no day, hear 0 1", 2, 0, 1, 12);
    write(t, d, b"no day, writing 0", 0, 64, 0, 12)
}

// Two controllers; place 0 has stopped. A record of an empty set has 15 bytes.
fn of_two(t: Tally, d: Day) -> Tally {
    let t = happen(t, d, b"stopping 1, the other largest", 1, 1, LARGEST, 0);
    let t = happen(t, d, b"stopping 128", 1, 128, 1, 12);
    let t = happen(t, d, b"stopping the largest", 1, LARGEST, 1, 12);
    let t = happen(t, d, b"1 hearing the largest", 2, 1, LARGEST, 12);
    let t = happen(t, d, b"0, stopped, hearing 128", 2, 0, 128, 12);
    let t = happen(t, d, b"an event of kind 0", 0, 1, 0, 14);
    let t = happen(t, d, b"an event of kind 3", 3, 1, 0, 14);
    let t = happen(t, d, b"an event of kind 255", 255, 1, 0, 14);
    let t = write(t, d, b"writing 2, no bytes", 2, 0, 0, 12);
    let t = write(t, d, b"writing the largest", LARGEST, 64, LARGEST, 12);
    let t = write(t, d, b"writing 1, no bytes", 1, 0, 0, 14);
    let t = write(
        t,
        d,
        b"writing 1 at the largest position",
        1,
        64,
        LARGEST,
        14,
    );
    let t = write(t, d, b"writing 0, no bytes", 0, 0, 0, 13);
    let t = write(t, d, b"writing 0, one byte less", 0, 34, 20, 13);
    let t = write(t, d, b"writing 0 past the end", 0, 64, 65, 13);
    let t = write(
        t,
        d,
        b"writing 0 at the largest position",
        0,
        64,
        LARGEST,
        13,
    );
    write(t, d, b"writing 0, just long enough", 0, 35, 20, 35)
}

// A day of two on which place 0 has stopped.
fn stopped(kind: u8) -> Day {
    let got = days::open(kind, &[7, 8]);
    let e = Event {
        kind: 1,
        place: Place(0),
        other: Place(9),
    };
    let d = got.day;
    let next = days::happen(d, e);
    next.day
}

pub fn cases(t: Tally) -> Tally {
    let t = counts(t);
    let t = serials(t);
    let t = of_none(t);
    let t = of_two(t, stopped(1));
    of_two(t, stopped(2))
}
