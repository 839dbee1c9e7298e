// Document 01's table of cases, P1 to P12, as cases 1 to 12, and what a group refuses: 9, then repeated or 10, then 11. Places are numbers
// from 0, sets the sum of their bits.
use crate::outcomes::{REPEATED, TAKEN};
use crate::runs::Run;
use crate::tallies::Tally;
use crate::{cases, parts, runs, stored};

fn p1_p2(t: Tally, kind: u8) -> Tally {
    let one = runs::opened(t, 1, kind, 1);
    let one = runs::answers(one, b"l", true);
    let t = one.tally;
    let two = runs::opened(t, 2, kind, 2);
    let two = runs::answers(two, b"oo", false);
    two.tally
}

// P3, and P6 after it.
fn p3_p6(t: Tally) -> Tally {
    let g = runs::opened(t, 3, 2, 4);
    let g = runs::offer(g, 0, 0, TAKEN);
    let g = runs::offer(g, 3, 6, TAKEN);
    let g = runs::answers(g, b"onnl", false);
    let g = runs::offer(g, 1, 1, TAKEN);
    let g = runs::answers(g, b"nnnl", true);
    g.tally
}

// P4, and P5 after it.
fn p4_p5(t: Tally) -> Tally {
    let g = runs::opened(t, 4, 1, 4);
    let g = runs::offer(g, 0, 0, TAKEN);
    let g = runs::offer(g, 3, 6, TAKEN);
    let g = runs::answers(g, b"lnnl", true);
    let g = runs::offer(g, 1, 1, 11);
    let g = runs::answers(g, b"lnnl", true);
    g.tally
}

// P7, and then all back with empty sets.
fn p7(t: Tally, kind: u8) -> Tally {
    let g = runs::opened(t, 7, kind, 3);
    let g = runs::offer(g, 0, 0, TAKEN);
    let g = runs::offer(g, 1, 0, TAKEN);
    let g = runs::answers(g, b"ool", false);
    let g = runs::offer(g, 2, 0, TAKEN);
    let g = runs::answers(g, b"lll", true);
    g.tally
}

// P8 in the full kind, P9 in the short one.
fn p8_p9(t: Tally, case: u64, kind: u8, letters: &[u8], settled: bool) -> Tally {
    let g = runs::opened(t, case, kind, 6);
    let g = runs::offer(g, 0, 40, TAKEN);
    let g = runs::offer(g, 1, 20, TAKEN);
    let g = runs::answers(g, letters, settled);
    g.tally
}

fn p10_p11(t: Tally) -> Tally {
    let g = runs::opened(t, 10, 2, 2);
    let g = runs::offer(g, 0, 2, TAKEN);
    let g = runs::offer(g, 1, 1, 11);
    let t = g.tally;
    let g = runs::opened(t, 11, 1, 3);
    let g = runs::offer(g, 0, 2, TAKEN);
    let g = runs::offer(g, 1, 4, 11);
    let t = g.tally;
    let g = runs::opened(t, 11, 1, 3);
    let g = runs::offer(g, 0, 6, TAKEN);
    let g = runs::offer(g, 1, 4, TAKEN);
    g.tally
}

fn p12(t: Tally, kind: u8) -> Tally {
    let g = runs::opened(t, 12, kind, 2);
    let g = runs::offer(g, 0, 1, 11);
    let g = runs::offer(g, 1, 3, 11);
    let g = runs::answers(g, b"oo", false);
    g.tally
}

// A circle of three and one of six, each refused at its last record.
fn circles(t: Tally) -> Tally {
    let g = runs::opened(t, 13, 2, 6);
    let g = runs::offer(g, 0, 2, TAKEN);
    let g = runs::offer(g, 1, 4, TAKEN);
    let g = runs::offer(g, 2, 1, 11);
    let g = runs::offer(g, 2, 8, TAKEN);
    let g = runs::offer(g, 5, 1, TAKEN);
    let g = runs::offer(g, 4, 32, TAKEN);
    let g = runs::offer(g, 3, 16, 11);
    let g = runs::offer(g, 3, 0, TAKEN);
    let g = runs::answers(g, b"nnnnln", true);
    g.tally
}

// P3's records where the mourned set is a full one's, and then where it is a short one's.
fn p3_in_both(t: Tally) -> Tally {
    let g = runs::opened(t, 18, 2, 4);
    let g = runs::offer(g, 0, 0, TAKEN);
    let g = runs::offer(runs::turned(g, 1), 3, 6, TAKEN);
    let g = runs::answers(g, b"lnnl", true);
    let g = runs::offer(runs::turned(g, 2), 1, 1, 11);
    let g = runs::offer(g, 1, 4, TAKEN);
    let t = g.tally;
    let g = runs::opened(t, 19, 1, 4);
    let g = runs::offer(g, 0, 0, TAKEN);
    let g = runs::offer(runs::turned(g, 2), 3, 6, TAKEN);
    let g = runs::answers(g, b"onnl", false);
    let g = runs::offer(runs::turned(g, 1), 1, 1, TAKEN);
    let g = runs::answers(g, b"nnnl", true);
    g.tally
}

// A chain of short rows: a full one has to hold all of it.
fn chain(t: Tally) -> Tally {
    let g = runs::opened(t, 20, 2, 6);
    let g = runs::offer(g, 1, 1, TAKEN);
    let g = runs::offer(g, 2, 2, TAKEN);
    let g = runs::offer(g, 3, 4, TAKEN);
    let g = runs::turned(g, 1);
    let g = runs::offer(g, 5, 8, 11);
    let g = runs::offer(g, 5, 14, 11);
    let g = runs::offer(g, 5, 15, TAKEN);
    let g = runs::offer(g, 4, 32, 11);
    let g = runs::offer(g, 4, 47, TAKEN);
    let g = runs::answers(g, b"nnnnln", true);
    let g = runs::offer(runs::turned(g, 2), 0, 16, 11);
    let g = runs::offer(g, 0, 0, TAKEN);
    g.tally
}

// The same from its other end: one whom a full one holds may bring nobody new, in either kind.
fn chain_back(t: Tally) -> Tally {
    let g = runs::opened(t, 30, 1, 6);
    let g = runs::offer(g, 5, 8, TAKEN);
    let g = runs::offer(g, 4, 40, TAKEN);
    let g = runs::offer(g, 3, 4, 11);
    let g = runs::turned(g, 2);
    let g = runs::offer(g, 3, 4, 11);
    let g = runs::offer(g, 3, 16, 11);
    let g = runs::offer(g, 3, 0, TAKEN);
    let g = runs::offer(g, 2, 1, TAKEN);
    let g = runs::answers(g, b"noonon", false);
    g.tally
}

// A group of three with one record taken: 0 mourns 1.
fn led(t: Tally, case: u64, kind: u8) -> Run {
    let g = runs::opened(t, case, kind, 3);
    runs::offer(g, 0, 2, TAKEN)
}

// 9: another order, a longer roster and a shorter one, and another serial.
fn strangers(g: Run) -> Run {
    let serials = stored::serials();
    let four = parts::of_six(&serials, 4);
    let two = parts::of_six(&serials, 2);
    let turned = [131072u32, 65536, 196608];
    let strange = [65536u32, 131072, 196609];
    let g = runs::offer_as(g, &turned, 1, 1, 9);
    let g = runs::offer_as(g, &turned, 2, 4, 9);
    let g = runs::offer_as(g, four, 0, 2, 9);
    let g = runs::offer_as(g, two, 0, 0, 9);
    runs::offer_as(g, &strange, 0, 2, 9)
}

// 9 comes before repeated, 10 and 11, in both kinds.
fn other_groups(t: Tally, kind: u8, letters: &[u8]) -> Tally {
    let g = strangers(led(t, 14, kind));
    let g = strangers(runs::turned(g, cases::other(kind)));
    let g = runs::answers(g, letters, false);
    g.tally
}

// In the other kind a second record of one that is back is 10, and that of another place is judged like any.
fn other_kind(t: Tally, kind: u8, letters: &[u8]) -> Tally {
    let other = cases::other(kind);
    let g = runs::turned(led(t, 17, kind), other);
    let g = runs::offer(g, 0, 2, 10);
    let g = runs::offer(g, 0, 4, 10);
    let g = runs::offer(g, 0, 1, 10);
    let g = runs::offer(g, 1, 1, 11);
    let g = runs::answers(g, letters, false);
    let g = runs::offer(g, 1, 0, TAKEN);
    let g = runs::write(g, 1, 0);
    let g = runs::turned(g, kind);
    let g = runs::write(g, 0, 2);
    let g = runs::offer(g, 1, 0, 10);
    let g = runs::offer(g, 0, 2, REPEATED);
    let g = runs::answers(g, b"onl", false);
    g.tally
}

// A second record of one that is back is repeated or 10 and never 11; 11 leaves its place free for another record.
fn seconds(t: Tally, kind: u8, letters: &[u8]) -> Tally {
    let g = led(t, 15, kind);
    let g = runs::offer(g, 0, 2, REPEATED);
    let g = runs::offer(g, 0, 4, 10);
    let g = runs::offer(g, 0, 6, 10);
    let g = runs::offer(g, 0, 0, 10);
    let g = runs::offer(g, 0, 1, 10);
    let g = runs::offer(g, 1, 1, 11);
    let g = runs::offer(g, 2, 4, 11);
    let g = runs::offer(g, 1, 7, 11);
    let g = runs::answers(g, letters, false);
    let g = runs::offer(g, 1, 0, TAKEN);
    let g = runs::offer(g, 1, 1, 10);
    let g = runs::offer(g, 0, 2, REPEATED);
    let g = runs::answers(g, b"onl", false);
    g.tally
}

// Faults of a record come before 9 and change nothing; each is offered as its own number.
fn faults(t: Tally, kind: u8, letters: &[u8]) -> Tally {
    let g = led(t, 16, kind);
    let g = runs::send(g, b"", 1, 0, 1);
    let g = runs::send(g, b"\x02\x00\x01\x00\x00", 1, 1, 1);
    let g = runs::send(g, b"\x00", 2, 0, 2);
    let g = runs::send(g, b"\x03\x00\x01\x00\x00", 2, 1, 2);
    let g = runs::send(g, b"\x02\x00\x00\x00\x00\x00", 4, 0, 4);
    let g = runs::send(
        g,
        b"\x02\x00\x00\x00\x07\x02\x00\x00\x00\x07\x00\x00\x00\x07",
        5,
        0,
        5,
    );
    let g = runs::send(g, b"\x02\x00\x00\x00\x08\x01\x00\x00\x00\x07", 6, 0, 6);
    let g = runs::send(
        g,
        b"\x02\x00\x00\x00\x07\x01\x00\x00\x00\x07\x00\x00",
        8,
        0,
        8,
    );
    let g = runs::answers(g, letters, false);
    g.tally
}

fn refusals(t: Tally, kind: u8, letters: &[u8]) -> Tally {
    let t = other_groups(t, kind, letters);
    let t = other_kind(t, kind, letters);
    let t = seconds(t, kind, letters);
    faults(t, kind, letters)
}

pub fn cases(t: Tally) -> Tally {
    let t = p1_p2(t, 1);
    let t = p1_p2(t, 2);
    let t = p3_p6(t);
    let t = p4_p5(t);
    let t = p7(t, 1);
    let t = p7(t, 2);
    let t = p8_p9(t, 8, 1, b"llnnnn", true);
    let t = p8_p9(t, 9, 2, b"oonnnn", false);
    let t = p10_p11(t);
    let t = p12(t, 1);
    let t = p12(t, 2);
    let t = circles(t);
    let t = p3_in_both(t);
    let t = chain(t);
    let t = chain_back(t);
    let t = refusals(t, 1, b"onl");
    refusals(t, 2, b"ono")
}
