// The smallest and the largest counts, and serials alike. The large rosters are the multiples of 65536.
use crate::outcomes::{LAST, NOT_LAST, NOTHING, OPEN, OPENED, TAKEN};
use crate::runs::Run;
use crate::tallies::Tally;
use crate::{cases, outcomes, parts, runs, stored, tallies};
use recovery::Recovery;
use serials::Serial;

const ALL: u64 = 18446744073709551615;

fn open(t: Tally, list: &[u32], expected: u64) -> Tally {
    let got = recovery::open(list);
    let answer = got.answer;
    tallies::called(
        t,
        b"open, length and first serial",
        list.len() as u64,
        stored::serial(list, 0) as u64,
        0,
        expected,
        outcomes::opening(answer),
    )
}

// The faults 3, 4, 5 of an opening, each over the whole.
fn opens(t: Tally) -> Tally {
    let zeros = [0u32; 129];
    let twice = [7u32, 7, 0];
    let many = stored::multiples();
    let t = open(t, parts::of_many(&many, 0), 3);
    let t = open(t, parts::of_many(&many, 129), 3);
    let t = open(t, &zeros, 3);
    let t = open(t, parts::numbers(&zeros, 128), 4);
    let t = open(t, &twice, 4);
    let t = open(t, parts::numbers(&twice, 2), 5);
    let t = open(t, parts::of_many(&many, 1), OPENED);
    open(t, parts::of_many(&many, 128), OPENED)
}

// Offers a record of some own serial with these two lists and these counts.
pub fn offer(
    g: Run,
    own: u32,
    count: u8,
    roster: &[u32],
    mourned_count: u8,
    mourned: &[u32],
    expected: u64,
) -> Run {
    let mut bytes = [0u8; 1100];
    let length = stored::lay(
        g.kind,
        own,
        count,
        roster,
        mourned_count,
        mourned,
        &mut bytes,
    );
    runs::send(
        g,
        parts::of_record(&bytes, length),
        count as u64,
        mourned_count as u64,
        expected,
    )
}

// Records offered to a group of one.
fn to_one(t: Tally, kind: u8) -> Tally {
    let many = stored::multiples();
    let none = parts::of_many(&many, 0);
    let one = parts::of_many(&many, 1);
    let two = parts::of_many(&many, 2);
    let g = runs::opened_with(t, 21, kind, one);
    let g = offer(g, 65536, 0, none, 0, none, 3);
    let g = offer(g, 65536, 2, two, 0, none, 9);
    let g = offer(g, 65536, 1, one, 1, one, 11);
    let g = offer(g, 65536, 1, one, 2, two, 3);
    let g = offer(g, 65536, 1, one, 0, none, TAKEN);
    let g = runs::answers(g, b"l", true);
    g.tally
}

// Records offered to a group of three.
fn to_three(t: Tally, kind: u8) -> Tally {
    let many = stored::multiples();
    let three = parts::of_many(&many, 3);
    let four = parts::of_many(&many, 4);
    let rest = [131072u32, 196608];
    let g = runs::opened_with(t, 22, kind, three);
    let g = offer(g, 65536, 3, three, 3, three, 11);
    let g = offer(g, 65536, 3, three, 4, four, 3);
    let g = offer(g, 65536, 3, three, 2, &rest, TAKEN);
    let g = runs::answers(g, b"lnn", true);
    g.tally
}

// Records offered to a group of 128; at last the last place, of the other kind, mourns all others.
fn to_128(t: Tally, kind: u8) -> Tally {
    let many = stored::multiples();
    let none = parts::of_many(&many, 0);
    let others = parts::of_many(&many, 127);
    let every = parts::of_many(&many, 128);
    let over = parts::of_many(&many, 129);
    let g = runs::opened_with(t, 23, kind, every);
    let g = offer(g, 65536, 129, over, 0, none, 3);
    let g = offer(g, 65536, 128, every, 128, every, 11);
    let g = offer(g, 65536, 128, every, 129, over, 3);
    let g = offer(g, 65536, 128, every, 0, none, TAKEN);
    let g = runs::unmourned(g, ALL, ALL, 128);
    let g = runs::ask(g, 0, OPEN);
    let g = runs::ask(g, 127, OPEN);
    let g = runs::ask(g, 128, 12);
    let g = runs::turned(g, cases::other(kind));
    let g = offer(g, 8388608, 128, every, 127, others, TAKEN);
    let g = runs::unmourned(g, 0, 9223372036854775808, 1);
    let g = runs::ask(g, 0, NOT_LAST);
    let g = runs::ask(g, 127, LAST);
    g.tally
}

// Sets of rosters that end beside a word's end.
fn words(t: Tally, kind: u8) -> Tally {
    let many = stored::multiples();
    let g = runs::opened_with(t, 24, kind, parts::of_many(&many, 63));
    let g = runs::unmourned(g, 9223372036854775807, 0, 63);
    let t = g.tally;
    let g = runs::opened_with(t, 25, kind, parts::of_many(&many, 64));
    let g = runs::unmourned(g, ALL, 0, 64);
    let t = g.tally;
    let g = runs::opened_with(t, 26, kind, parts::of_many(&many, 65));
    let g = runs::unmourned(g, ALL, 1, 65);
    let g = runs::ask(g, 64, OPEN);
    let g = runs::ask(g, 65, 12);
    g.tally
}

fn find(t: Tally, r: Recovery, case: u64, x: u32, expected: u64) -> Tally {
    let got = recovery::find(r, Serial(x));
    tallies::called(
        t,
        b"find, case and serial",
        case,
        x as u64,
        0,
        expected,
        outcomes::found(got),
    )
}

// Every serial of a recovery is found at its place.
fn finds(tally: Tally, r: Recovery, case: u64, list: &[u32]) -> Tally {
    let mut t = tally;
    for (i, x) in list.iter().enumerate() {
        t = find(t, r, case, *x, i as u64);
    }
    t
}

// The 128 multiples of 65536.
fn multiples(t: Tally) -> Tally {
    let many = stored::multiples();
    let every = parts::of_many(&many, 128);
    let g = runs::opened_with(t, 27, 1, every);
    let r = g.recovery;
    let t = g.tally;
    let t = finds(t, r, 27, every);
    let t = find(t, r, 27, 8454144, NOTHING);
    let t = find(t, r, 27, 0, NOTHING);
    let t = find(t, r, 27, 1, NOTHING);
    find(t, r, 27, 65537, NOTHING)
}

// Serials that differ in one bit from another, which comes last.
fn one_bit(t: Tally) -> Tally {
    let mut many = [0u32; 130];
    stored::one_bit(&mut many, 0x01020304);
    let list = parts::of_many(&many, 33);
    let g = runs::opened_with(t, 28, 2, list);
    let r = g.recovery;
    let t = g.tally;
    let t = finds(t, r, 28, list);
    find(t, r, 28, 0x01020307, NOTHING)
}

// Serials that share their low 24, 16 and 8 bits.
fn low_bits(t: Tally) -> Tally {
    let list = [0x01020304u32, 0x91020304, 0x01920304, 0x01029304];
    let g = runs::opened_with(t, 29, 2, &list);
    let r = g.recovery;
    let t = g.tally;
    let t = finds(t, r, 29, &list);
    let t = find(t, r, 29, 0x81020304, NOTHING);
    let t = find(t, r, 29, 0x01820304, NOTHING);
    let t = find(t, r, 29, 0x01028304, NOTHING);
    let t = find(t, r, 29, 0x00020304, NOTHING);
    let t = find(t, r, 29, 0x00000304, NOTHING);
    find(t, r, 29, 0x00000004, NOTHING)
}

fn both_kinds(t: Tally, kind: u8) -> Tally {
    let t = to_one(t, kind);
    let t = to_three(t, kind);
    let t = to_128(t, kind);
    words(t, kind)
}

pub fn cases(t: Tally) -> Tally {
    let t = opens(t);
    let t = both_kinds(t, 1);
    let t = both_kinds(t, 2);
    let t = multiples(t);
    let t = one_bit(t);
    low_bits(t)
}
