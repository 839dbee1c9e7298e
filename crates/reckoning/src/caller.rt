// What a caller is refused, and in which order. The recovery is P7's: three places, 0 and 1 back with empty sets, so that 2 is last
// and 0 and 1 are open; the record of 0 is short, that of 1 full. Its rows are 48 bytes, and each of its records 19.
use crate::outcomes::{DECIDED, FITS, FITS_NOT, SHOWN, TAKEN};
use crate::tallies::Tally;
use crate::{laid, outcomes, parts, runs, stored, tallies};
use recovery::Recovery;
use sets::Place;

const LARGEST: usize = 18446744073709551615;

fn ask(t: Tally, r: Recovery, place: usize, expected: u64) -> Tally {
    let got = recovery::ask(r, Place(place));
    tallies::called(
        t,
        b"ask of P7",
        place as u64,
        0,
        0,
        expected,
        outcomes::asked(got),
    )
}

fn asks(t: Tally, r: Recovery) -> Tally {
    let t = ask(t, r, 3, 12);
    let t = ask(t, r, 64, 12);
    let t = ask(t, r, 127, 12);
    let t = ask(t, r, 128, 12);
    ask(t, r, LARGEST, 12)
}

// Shows a place with two lent buffers of these lengths; neither is touched unless it is shown.
fn show(tally: Tally, r: Recovery, place: usize, one: usize, two: usize, expected: u64) -> Tally {
    let mut first = [0xaau8; 80];
    let mut second = [0xaau8; 80];
    let got = recovery::show(
        r,
        Place(place),
        parts::lent(&mut first, one),
        parts::lent(&mut second, two),
    );
    let came = outcomes::showing(got);
    let p = place as u64;
    let a = one as u64;
    let b = two as u64;
    let t = tallies::called(
        tally,
        b"show of P7, place and lengths",
        p,
        a,
        b,
        expected,
        came,
    );
    if came == SHOWN {
        return t;
    }
    let touched = laid::read(0, &first) | laid::read(0, &second);
    tallies::called(
        t,
        b"buffers of show of P7, place and lengths",
        p,
        a,
        b,
        1,
        outcomes::truth(touched == 0),
    )
}

// 12, decided, 13: in this order.
fn shows(t: Tally, r: Recovery) -> Tally {
    let t = show(t, r, 3, 0, 0, 12);
    let t = show(t, r, 3, 48, 48, 12);
    let t = show(t, r, LARGEST, 48, 48, 12);
    let t = show(t, r, 2, 0, 0, DECIDED);
    let t = show(t, r, 2, 48, 48, DECIDED);
    let t = show(t, r, 0, 0, 0, 13);
    let t = show(t, r, 0, 47, 48, 13);
    let t = show(t, r, 0, 48, 47, 13);
    let t = show(t, r, 1, 80, 47, 13);
    let t = show(t, r, 0, 48, 48, SHOWN);
    show(t, r, 1, 49, 80, SHOWN)
}

// Checks the first bytes of a buffer of zeros with one other byte.
fn check(t: Tally, r: Recovery, length: usize, at: usize, x: u8, expected: u64) -> Tally {
    let mut bytes = [0u8; 80];
    if at < 80 {
        bytes[at] = x;
    }
    let got = recovery::check(r, parts::of_buffer(&bytes, length));
    tallies::called(
        t,
        b"check of P7, length, position and byte",
        length as u64,
        at as u64,
        x as u64,
        expected,
        outcomes::checked(got),
    )
}

// 13, 15, then the answer; what stands past the rows is not looked at.
fn checks(t: Tally, r: Recovery) -> Tally {
    let t = check(t, r, 48, 0, 0, FITS);
    let t = check(t, r, 48, 32, 1, FITS);
    let t = check(t, r, 48, 0, 2, FITS_NOT);
    let t = check(t, r, 48, 32, 4, FITS_NOT);
    let t = check(t, r, 0, 0, 0, 13);
    let t = check(t, r, 47, 0, 0, 13);
    let t = check(t, r, 47, 0, 8, 13);
    let t = check(t, r, 48, 32, 8, 15);
    let t = check(t, r, 48, 0, 8, 15);
    let t = check(t, r, 48, 0, 10, 15);
    let t = check(t, r, 48, 8, 1, 15);
    let t = check(t, r, 48, 47, 128, 15);
    let t = check(t, r, 49, 48, 255, FITS);
    check(t, r, 80, 79, 255, FITS)
}

// The kind of a place's record.
fn kind(place: usize) -> u8 {
    if place == 1 {
        return 1;
    }
    2
}

// Writes into the first bytes of a buffer, which is touched only where the record goes.
fn write(
    tally: Tally,
    r: Recovery,
    place: usize,
    length: usize,
    at: usize,
    expected: u64,
) -> Tally {
    let mut made = [0u8; 1100];
    let mut out = [0xaau8; 80];
    let got = recovery::write(r, Place(place), parts::lent(&mut out, length), at);
    let came = outcomes::writing(got);
    let p = place as u64;
    let n = length as u64;
    let a = at as u64;
    let t = tallies::called(
        tally,
        b"write of P7, place, length and position",
        p,
        n,
        a,
        expected,
        came,
    );
    let serials = stored::serials();
    let all = stored::record(kind(place), place, parts::of_six(&serials, 3), 0, &mut made);
    let same = if came < 16 {
        laid::read(0, &out) == 0
    } else {
        laid::has_only(&out, at, parts::of_record(&made, all))
    };
    let truth = outcomes::truth(same);
    tallies::called(
        t,
        b"bytes of write of P7, place, length and position",
        p,
        n,
        a,
        1,
        truth,
    )
}

// 12, 14, 13: in this order; no position wraps.
fn writes(t: Tally, r: Recovery) -> Tally {
    let t = write(t, r, 3, 0, 1, 12);
    let t = write(t, r, LARGEST, 40, LARGEST, 12);
    let t = write(t, r, 2, 40, 0, 14);
    let t = write(t, r, 2, 0, 0, 14);
    let t = write(t, r, 2, 40, LARGEST, 14);
    let t = write(t, r, 0, 0, 0, 13);
    let t = write(t, r, 0, 18, 0, 13);
    let t = write(t, r, 0, 40, 22, 13);
    let t = write(t, r, 0, 40, 40, 13);
    let t = write(t, r, 0, 40, 41, 13);
    let t = write(t, r, 0, 40, LARGEST, 13);
    let t = write(t, r, 1, 40, LARGEST - 18, 13);
    let t = write(t, r, 0, 19, 0, 19);
    let t = write(t, r, 1, 40, 21, 40);
    write(t, r, 1, 80, 1, 20)
}

pub fn cases(t: Tally) -> Tally {
    let g = runs::opened(t, 7, kind(0), 3);
    let g = runs::offer(g, 0, 0, TAKEN);
    let g = runs::turned(g, kind(1));
    let g = runs::offer(g, 1, 0, TAKEN);
    let r = g.recovery;
    let t = g.tally;
    let t = asks(t, r);
    let t = shows(t, r);
    let t = checks(t, r);
    writes(t, r)
}
