// Board swaps, case by case: which second serials are refused, how they are found, and records that use them. The small rosters have
// 65536, 131072 and 196608, and 458752, 524288 and 589824 as their second serials.
use crate::outcomes::{GIVEN, NOTHING, REPEATED, SECOND, TAKEN};
use crate::runs::Run;
use crate::tallies::Tally;
use crate::{cases, counts, parts, runs, stored};

const LARGEST: usize = 18446744073709551615;

// 16: the first serial of another place, a place's own first, the second of another, the same once more, and another for a place that
// has one.
fn known(t: Tally, kind: u8) -> Tally {
    let g = runs::opened(t, 41, kind, 3);
    let g = runs::give(g, 1, 65536, 16);
    let g = runs::give(g, 1, 131072, 16);
    let g = runs::give(g, 0, 458752, GIVEN);
    let g = runs::give(g, 1, 458752, 16);
    let g = runs::give(g, 0, 458752, 16);
    let g = runs::give(g, 0, 524288, 16);
    let g = runs::give(g, 0, 65536, 16);
    let g = runs::give(g, 1, 524288, GIVEN);
    let g = runs::find(g, 65536, 0);
    let g = runs::find(g, 458752, SECOND);
    let g = runs::find(g, 131072, 1);
    let g = runs::find(g, 524288, SECOND + 1);
    let g = runs::find(g, 196608, 2);
    let g = runs::find(g, 589824, NOTHING);
    let g = runs::find(g, 0, NOTHING);
    g.tally
}

// 12, 4, 16: in this order. The serial beside a known one is not known.
fn in_order(t: Tally, kind: u8) -> Tally {
    let g = runs::opened(t, 42, kind, 3);
    let g = runs::give(g, 3, 0, 12);
    let g = runs::give(g, LARGEST, 0, 12);
    let g = runs::give(g, 128, 65536, 12);
    let g = runs::give(g, LARGEST, 65536, 12);
    let g = runs::give(g, LARGEST, 458752, 12);
    let g = runs::give(g, 2, 0, 4);
    let g = runs::give(g, 2, 589824, GIVEN);
    let g = runs::give(g, 2, 0, 4);
    let g = runs::give(g, 3, 589824, 12);
    let g = runs::give(g, 2, 589824, 16);
    let g = runs::give(g, 0, 589825, GIVEN);
    let g = runs::give(g, 1, 4294967295, GIVEN);
    let g = runs::find(g, 4294967295, SECOND + 1);
    g.tally
}

// A recovery that was refused has no places.
fn unopened(t: Tally) -> Tally {
    let zeros = [0u32; 3];
    let got = recovery::open(&zeros);
    let r = got.recovery;
    let g = Run {
        case: 43,
        kind: 1,
        n: 0,
        recovery: r,
        tally: t,
    };
    let g = runs::give(g, 0, 458752, 12);
    let g = runs::find(g, 458752, NOTHING);
    let g = runs::find(g, 0, NOTHING);
    g.tally
}

// Gives the places of a roster a list of second serials.
fn gives(run: Run, list: &[u32]) -> Run {
    let mut g = run;
    for (i, x) in list.iter().enumerate() {
        g = runs::give(g, i, *x, GIVEN);
    }
    g
}

// Finds each serial of a list, as the first or as the second one of its place.
fn finds(run: Run, list: &[u32], which: u64) -> Run {
    let mut g = run;
    for (i, x) in list.iter().enumerate() {
        g = runs::find(g, *x, which.wrapping_add(i as u64));
    }
    g
}

// 128 places whose serials are the multiples of 65536: all are found, and records of 128 and of 127 mourned second serials are read.
fn of_128(t: Tally, kind: u8) -> Tally {
    let many = stored::multiples();
    let more = stored::second_multiples();
    let firsts = parts::of_many(&many, 128);
    let seconds = parts::of_many(&more, 128);
    let others = parts::of_many(&more, 127);
    let g = runs::opened_with(t, 44, kind, firsts);
    let g = counts::offer(g, 16777216, 128, firsts, 127, others, 6);
    let g = gives(g, seconds);
    let g = finds(g, firsts, 0);
    let g = finds(g, seconds, SECOND);
    let g = runs::find(g, 16842752, NOTHING);
    let g = runs::find(g, 65537, NOTHING);
    let g = runs::give(g, 128, 16842752, 12);
    let g = runs::give(g, 127, 16842752, 16);
    let g = counts::offer(g, 16777216, 128, firsts, 128, seconds, 11);
    let g = counts::offer(g, 16777216, 128, firsts, 127, others, TAKEN);
    let g = runs::unmourned(g, 0, 9223372036854775808, 1);
    let plain = parts::of_many(&many, 127);
    let g = counts::offer(g, 8388608, 128, firsts, 127, plain, REPEATED);
    g.tally
}

// A record that was taken before a giving stays as it is, and comes again in either serials, but not in the other kind.
fn taken_before(t: Tally, kind: u8, letters: &[u8]) -> Tally {
    let seconds = [458752u32, 524288, 589824];
    let g = runs::opened(t, 45, kind, 3);
    let g = runs::offer(g, 0, 2, TAKEN);
    let g = runs::offer_mixed(g, 0, true, 2, 0, 6);
    let g = runs::answers(g, letters, false);
    let g = gives(g, &seconds);
    let g = runs::answers(g, letters, false);
    let g = runs::write(g, 0, 2);
    let g = runs::offer(g, 0, 2, REPEATED);
    let g = runs::offer_mixed(g, 0, true, 2, 0, REPEATED);
    let g = runs::offer_mixed(g, 0, false, 2, 2, REPEATED);
    let g = runs::offer_mixed(g, 0, true, 2, 2, REPEATED);
    let g = runs::offer_mixed(g, 0, true, 4, 4, 10);
    let g = runs::offer_mixed(g, 0, true, 1, 0, 10);
    let g = runs::turned(g, cases::other(kind));
    let g = runs::offer_mixed(g, 0, false, 2, 0, 10);
    let g = runs::offer_mixed(g, 0, true, 2, 2, 10);
    let g = runs::answers(g, letters, false);
    let g = runs::write(runs::turned(g, kind), 0, 2);
    g.tally
}

// A record that was refused by 6 is taken after the giving.
fn refused_before(t: Tally, kind: u8, letters: &[u8], settled: bool) -> Tally {
    let g = runs::opened(t, 46, kind, 3);
    let g = runs::offer_mixed(g, 0, true, 0, 0, 6);
    let g = runs::offer_mixed(g, 1, false, 4, 4, 6);
    let g = runs::give(g, 0, 458752, GIVEN);
    let g = runs::offer_mixed(g, 1, false, 4, 4, 6);
    let g = runs::offer_mixed(g, 0, true, 0, 0, TAKEN);
    let g = runs::give(g, 2, 589824, GIVEN);
    let g = runs::offer_mixed(g, 1, false, 4, 4, TAKEN);
    let g = runs::answers(g, letters, settled);
    let g = runs::write(g, 0, 0);
    let g = runs::write(g, 1, 4);
    g.tally
}

// Whichever serial calls it, a place is one place: 11 where it mourns itself, and 11 where two mourn each other.
fn circles(t: Tally, kind: u8) -> Tally {
    let seconds = [458752u32, 524288, 589824];
    let g = gives(runs::opened(t, 47, kind, 3), &seconds);
    let g = runs::offer_mixed(g, 0, true, 1, 0, 11);
    let g = runs::offer_mixed(g, 0, false, 1, 1, 11);
    let g = runs::offer_mixed(g, 0, true, 1, 1, 11);
    let g = runs::offer_mixed(g, 2, true, 7, 2, 11);
    let g = runs::offer_mixed(g, 0, false, 2, 2, TAKEN);
    let g = runs::offer_mixed(g, 1, true, 1, 0, 11);
    let g = runs::offer_mixed(g, 1, false, 1, 1, 11);
    g.tally
}

// Offers a record of three places that mourns two serials.
fn offer_two(g: Run, own: u32, one: u32, two: u32, expected: u64) -> Run {
    let serials = stored::serials();
    let mourned = [one, two];
    counts::offer(g, own, 3, parts::of_six(&serials, 3), 2, &mourned, expected)
}

// Faults of mourned serials go by places: 4, 6 and 7.
fn faults(t: Tally, kind: u8) -> Tally {
    let seconds = [458752u32, 524288];
    let g = gives(runs::opened(t, 48, kind, 3), &seconds);
    let g = offer_two(g, 65536, 131072, 524288, 7);
    let g = offer_two(g, 458752, 524288, 131072, 7);
    let g = offer_two(g, 458752, 524288, 524288, 7);
    let g = offer_two(g, 458752, 196608, 524288, 7);
    let g = offer_two(g, 458752, 524288, 458752, 7);
    let g = offer_two(g, 458752, 524288, 589824, 6);
    let g = offer_two(g, 458752, 196608, 524289, 6);
    let g = offer_two(g, 458752, 524288, 0, 4);
    let g = offer_two(g, 0, 524288, 589824, 4);
    let g = offer_two(g, 589824, 0, 0, 6);
    let g = offer_two(g, 458752, 524288, 196608, TAKEN);
    g.tally
}

// A roster section keeps the first serials, else 9; a second serial that stands in it is there for itself.
fn other_rosters(t: Tally, kind: u8) -> Tally {
    let firsts = [1u32, 2];
    let seconds = [8u32, 9];
    let half = [1u32, 8];
    let three = [1u32, 2, 8];
    let g = gives(runs::opened_with(t, 49, kind, &firsts), &seconds);
    let g = counts::offer(g, 8, 2, &seconds, 1, parts::numbers(&seconds, 1), 9);
    let g = counts::offer(g, 1, 2, &seconds, 0, parts::numbers(&seconds, 0), 6);
    let g = counts::offer(g, 1, 2, &half, 2, &half, 9);
    let g = counts::offer(g, 1, 2, &firsts, 2, &half, 7);
    let g = counts::offer(g, 8, 3, &three, 3, &three, 9);
    let g = counts::offer(g, 8, 2, &firsts, 1, parts::numbers(&seconds, 1), 11);
    let g = counts::offer(g, 9, 2, &firsts, 1, parts::numbers(&seconds, 1), TAKEN);
    let g = counts::offer(g, 2, 2, &firsts, 1, parts::numbers(&firsts, 1), REPEATED);
    g.tally
}

fn both_kinds(t: Tally, kind: u8) -> Tally {
    let t = known(t, kind);
    let t = in_order(t, kind);
    let t = of_128(t, kind);
    let t = circles(t, kind);
    let t = faults(t, kind);
    other_rosters(t, kind)
}

pub fn cases(t: Tally) -> Tally {
    let t = both_kinds(t, 1);
    let t = both_kinds(t, 2);
    let t = unopened(t);
    let t = taken_before(t, 1, b"onl");
    let t = taken_before(t, 2, b"ono");
    let t = refused_before(t, 1, b"lln", true);
    refused_before(t, 2, b"oln", false)
}
