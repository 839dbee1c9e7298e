// One pile, beyond its answers: the two histories of each place, each record written back and offered again, and histories checked.
ghost use Rattle.std.specs.Prelude.{◌<◌, ◌≤◌};

use crate::cases::Case;
use crate::matrices::Pile;
use crate::tallies::Tally;
use crate::{cases, laid, matrices, outcomes, parts, piles, stored};
use recovery::Recovery;
use sets::Place;

// Neither buffer was touched.
fn untouched(c: Case, t: Tally, place: usize, first: &[u8; 80], second: &[u8; 80]) -> Tally {
    let about = place as u64;
    let t = cases::held(t, c, b"show, first", about, 0, laid::read(0, first) as u64);
    cases::held(
        t,
        c,
        b"show, second",
        about,
        0,
        laid::read(0, second) as u64,
    )
}

// The first has the recorded rows and no more; both are histories that fit, the place last in one and not in the other; and the
// second is the recorded rows with one row more, of the lowest absent place that can have heard this one and everyone before it.
fn histories(c: Case, pile: Pile, t: Tally, place: usize, first: u32, second: u32) -> Tally {
    let about = place as u64;
    let known = matrices::rows(pile);
    let t = cases::held(t, c, b"show, first", about, known as u64, first as u64);
    let t = cases::held(
        t,
        c,
        b"show, of the first",
        about,
        outcomes::LAST,
        matrices::verdict(c.n, pile, place, first),
    );
    let t = cases::held(
        t,
        c,
        b"show, of the second",
        about,
        outcomes::NOT_LAST,
        matrices::verdict(c.n, pile, place, second),
    );
    let heard = matrices::lowest_heard(c.n, pile, place);
    cases::held(t, c, b"show, second", about, heard as u64, second as u64)
}

// What showing says of a place.
fn shown(list: &[u32], pile: Pile, place: usize) -> u64 {
    if matrices::answer(list, pile, matrices::fitting(list, pile), place) == outcomes::OPEN {
        return outcomes::SHOWN;
    }
    outcomes::DECIDED
}

fn show(list: &[u32], c: Case, r: &Recovery, pile: Pile, tally: Tally, place: usize) -> Tally {
    let mut first = [0xaau8; 80];
    let mut second = [0xaau8; 80];
    let expected = shown(list, pile, place);
    let got = recovery::show(*r, Place(place), &mut first, &mut second);
    let came = outcomes::showing(got);
    let t = cases::held(tally, c, b"show", place as u64, expected, came);
    if came != outcomes::SHOWN {
        return untouched(c, t, place, &first, &second);
    }
    let one = laid::read(c.n, &first);
    let two = laid::read(c.n, &second);
    histories(c, pile, t, place, one, two)
}

// Writes the record of a place that is back: the bytes that were offered.
fn write_back(c: Case, r: &Recovery, t: Tally, kind: u8, place: usize, mourned: u32) -> Tally {
    let serials = stored::serials();
    let n = c.n;
    let mut made = [0u8; 1100];
    let mut out = [0xaau8; 80];
    let length = stored::record(kind, place, parts::of_six(&serials, n), mourned, &mut made);
    let got = recovery::write(*r, Place(place), &mut out, 20);
    let t = cases::held(
        t,
        c,
        b"write",
        place as u64,
        20 + length as u64,
        outcomes::writing(got),
    );
    let same = laid::has_only(&out, 20, parts::of_record(&made, length));
    cases::held(t, c, b"written", place as u64, 1, outcomes::truth(same))
}

// The record of a place that is not back is not written.
fn write_none(c: Case, r: &Recovery, t: Tally, place: usize) -> Tally {
    let mut out = [0xaau8; 80];
    let got = recovery::write(*r, Place(place), &mut out, 20);
    let t = cases::held(t, c, b"write", place as u64, 14, outcomes::writing(got));
    cases::held(
        t,
        c,
        b"written",
        place as u64,
        0,
        laid::read(0, &out) as u64,
    )
}

// Offers a record of a place that is back: the same again, another set, and the other kind.
fn again(c: Case, r: &Recovery, t: Tally, kind: u8, place: usize, mourned: u32) -> Tally {
    let about = place as u64;
    let came = piles::reply(c.n, r, kind, place, mourned);
    let t = cases::held(t, c, b"offer again", about, outcomes::REPEATED, came);
    let came = piles::reply(c.n, r, kind, place, mourned ^ 1);
    let t = cases::held(t, c, b"offer another set", about, 10, came);
    let came = piles::reply(c.n, r, cases::other(kind), place, mourned);
    cases::held(t, c, b"offer in the other kind", about, 10, came)
}

// All of this for a place.
fn of_place(list: &[u32], c: Case, r: &Recovery, pile: Pile, tally: Tally, place: usize) -> Tally {
    let t = show(list, c, r, pile, tally, place);
    if !matrices::is_back(pile, place) {
        return write_none(c, r, t, place);
    }
    let kind = matrices::kind(pile, place);
    let mourned = matrices::row(pile.rows, place);
    let t = write_back(c, r, t, kind, place, mourned);
    again(c, r, t, kind, place, mourned)
}

pub(crate) fn places(list: &[u32], c: Case, r: &Recovery, pile: Pile, tally: Tally) -> Tally {
    let mut t = tally;
    for place in 0..c.n {
        t = of_place(list, c, r, pile, t, place);
    }
    t
}

// What the check says of a matrix.
fn checked(c: Case, pile: Pile, m: u32) -> u64 {
    if matrices::fits(c.n, pile, m) {
        return outcomes::FITS;
    }
    outcomes::FITS_NOT
}

fn check(c: Case, r: &Recovery, pile: Pile, t: Tally, m: u32) -> Tally {
    let mut bytes = [0u8; 80];
    laid::lay(m, c.n, &mut bytes);
    let got = recovery::check(*r, parts::of_buffer(&bytes, 80));
    cases::held(
        t,
        c,
        b"check",
        m as u64,
        checked(c, pile, m),
        outcomes::checked(got),
    )
}

// Checks every so many-th matrix of the roster.
pub(crate) fn checks(
    c: Case,
    r: &Recovery,
    pile: Pile,
    tally: Tally,
    from: u32,
    stride: u32,
) -> Tally
    requires { (0 < stride) × (stride ≤ 65536) }
{
    let mut t = tally;
    for k in (from..matrices::all(c.n)).step_by(stride as usize) {
        t = check(c, r, pile, t, matrices::spread(c.n, k));
    }
    t
}

// Checks every so many-th listed history, with the recorded rows put in.
pub(crate) fn listed(
    list: &[u32],
    c: Case,
    r: &Recovery,
    pile: Pile,
    tally: Tally,
    from: usize,
    stride: usize,
) -> Tally
    requires { (0 < stride) × (stride ≤ 1024) }
{
    let mut t = tally;
    for i in (from..list.len()).step_by(stride) {
        t = check(c, r, pile, t, matrices::recorded(pile, list[i]));
    }
    t
}
