// Fetches, case by case: how many are told, and how many the game lasts. Places are numbers from 0, sets the sum of their bits.
use crate::outcomes::{GIVEN, NOTHING, SETTLED, TAKEN};
use crate::runs::Run;
use crate::tallies::Tally;
use crate::{parts, runs, stored};

// Nothing is told, and the game is over.
fn over(g: Run) -> Run {
    runs::play(runs::told(g, SETTLED, NOTHING), 0)
}

// So many fetches are told, and the game lasts as long.
fn lasting(g: Run, fetches: u64, next: u64) -> Run {
    runs::play(runs::told(g, fetches, next), fetches)
}

// A roster that was refused has no places.
fn unopened(t: Tally) -> Tally {
    let zeros = [0u32; 3];
    let got = recovery::open(&zeros);
    let r = got.recovery;
    let g = Run {
        case: 61,
        kind: 1,
        n: 0,
        recovery: r,
        tally: t,
    };
    over(g).tally
}

// P1 and P2, and rosters of three and four with nobody back: every place blocks the others.
fn nobody_back(t: Tally, kind: u8) -> Tally {
    let g = over(runs::opened(t, 62, kind, 1));
    let t = g.tally;
    let g = lasting(runs::opened(t, 62, kind, 2), 2, 0);
    let t = g.tally;
    let g = lasting(runs::opened(t, 62, kind, 3), 3, 0);
    let t = g.tally;
    let g = lasting(runs::opened(t, 62, kind, 4), 4, 0);
    g.tally
}

// 17: rosters of more than four, whatever is told of them.
fn large_rosters(t: Tally, kind: u8) -> Tally {
    let many = stored::multiples();
    let g = runs::told(runs::opened(t, 63, kind, 5), 5, 0);
    let g = runs::play(g, 17);
    let t = g.tally;
    let g = runs::told(runs::opened(t, 63, kind, 6), 6, 0);
    let g = runs::play(g, 17);
    let t = g.tally;
    let g = runs::opened_with(t, 63, kind, parts::of_many(&many, 128));
    let g = runs::play(runs::told(g, 128, 0), 17);
    g.tally
}

// P3: 1 and 2 may have heard 0, and no second serial changes that. Then P6, where 1 has heard it.
fn p3_p6(t: Tally) -> Tally {
    let g = runs::opened(t, 64, 2, 4);
    let g = runs::offer(g, 0, 0, TAKEN);
    let g = runs::offer(g, 3, 6, TAKEN);
    let p3 = lasting(g, 2, 1);
    let p3 = lasting(runs::give(p3, 1, 458752, GIVEN), 2, 1);
    let p6 = over(runs::offer(p3, 1, 1, TAKEN));
    p6.tally
}

// P3, and then the records that keep a crew busy.
fn p3_to_its_end(t: Tally) -> Tally {
    let g = runs::opened(t, 65, 2, 4);
    let g = runs::offer(g, 0, 0, TAKEN);
    let g = runs::offer(g, 3, 6, TAKEN);
    let g = lasting(runs::offer(g, 1, 0, TAKEN), 1, 2);
    let g = over(runs::offer(g, 2, 0, TAKEN));
    g.tally
}

// P4 is settled; P7 waits for 2.
fn p4_p7(t: Tally) -> Tally {
    let g = runs::opened(t, 66, 1, 4);
    let g = runs::offer(g, 0, 0, TAKEN);
    let g = over(runs::offer(g, 3, 6, TAKEN));
    let t = g.tally;
    let g = runs::opened(t, 66, 1, 3);
    let g = runs::offer(g, 0, 0, TAKEN);
    let g = lasting(runs::offer(g, 1, 0, TAKEN), 1, 2);
    g.tally
}

// P8 is settled and P9 is not: 2 and 4 may have heard 0, and 3 and 5 may have heard 1. A roster of six is not played out.
fn p8_p9(t: Tally) -> Tally {
    let g = runs::opened(t, 67, 1, 6);
    let g = runs::offer(g, 0, 40, TAKEN);
    let g = runs::offer(g, 1, 20, TAKEN);
    let g = runs::play(runs::told(g, SETTLED, NOTHING), 17);
    let t = g.tally;
    let g = runs::opened(t, 67, 2, 6);
    let g = runs::offer(g, 0, 40, TAKEN);
    let g = runs::offer(g, 1, 20, TAKEN);
    let g = runs::play(runs::told(g, 4, 2), 17);
    let g = runs::told(runs::offer(g, 2, 0, TAKEN), 3, 3);
    let g = runs::told(runs::offer(g, 4, 1, TAKEN), SETTLED, NOTHING);
    g.tally
}

// Four places, and 0 back with a set.
fn one_back(t: Tally, kind: u8, mourned: u32, fetches: u64, next: u64) -> Tally {
    let g = runs::opened(t, 68, kind, 4);
    let g = runs::offer(g, 0, mourned, TAKEN);
    let g = lasting(g, fetches, next);
    g.tally
}

// A place that a short record names may still have heard others; one that a full record names may not.
fn of_both_kinds(t: Tally) -> Tally {
    let t = one_back(t, 1, 0, 3, 1);
    let t = one_back(t, 2, 0, 3, 1);
    let t = one_back(t, 1, 2, 2, 2);
    let t = one_back(t, 2, 2, 3, 1);
    let t = one_back(t, 1, 6, 1, 3);
    one_back(t, 2, 6, 3, 1)
}

// 1 is before both unmourned places and blocks neither; 2 may have heard 0.
fn before_both(t: Tally) -> Tally {
    let g = runs::opened(t, 70, 2, 4);
    let g = runs::offer(g, 0, 2, TAKEN);
    let g = lasting(runs::offer(g, 3, 6, TAKEN), 1, 2);
    let g = over(runs::offer(g, 2, 0, TAKEN));
    g.tally
}

// All others mourned by 0: none of them heard it.
fn all_mourned(t: Tally, kind: u8) -> Tally {
    let g = runs::opened(t, 69, kind, 4);
    let g = over(runs::offer(g, 0, 14, TAKEN));
    g.tally
}

pub fn cases(t: Tally) -> Tally {
    let t = unopened(t);
    let t = nobody_back(t, 1);
    let t = large_rosters(t, 1);
    let t = p3_p6(t);
    let t = p3_to_its_end(t);
    let t = p4_p7(t);
    let t = p8_p9(t);
    let t = of_both_kinds(t);
    let t = before_both(t);
    let t = all_mourned(t, 1);
    all_mourned(t, 2)
}
