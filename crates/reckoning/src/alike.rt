// Two recoveries compared as values; what a giving leaves; and the records of a pile in every order: where some history fits them all,
// each is taken in each order, what is left is equal, and stays so when they are offered once more.
use crate::cases::Case;
use crate::matrices::Pile;
use crate::outcomes::REPEATED;
use crate::tallies::Tally;
use crate::{cases, matrices, outcomes, piles};
use recovery::Recovery;
use sets::PlaceSet;

fn same_set(a: PlaceSet, b: PlaceSet) -> bool {
    if a.low != b.low {
        return false;
    }
    a.high == b.high
}

// The count and the four sets.
fn same_heads(a: Recovery, b: Recovery) -> bool {
    if a.count != b.count {
        return false;
    }
    let one = a.returned;
    let two = b.returned;
    if !same_set(one, two) {
        return false;
    }
    let one = a.full;
    let two = b.full;
    if !same_set(one, two) {
        return false;
    }
    let one = a.mourned;
    let two = b.mourned;
    if !same_set(one, two) {
        return false;
    }
    let one = a.earlier;
    let two = b.earlier;
    same_set(one, two)
}

// Every field, the serials past the roster and the rows of absent places too.
pub fn same(a: Recovery, b: Recovery) -> bool {
    if !same_heads(a, b) {
        return false;
    }
    a.serials == b.serials && a.seconds == b.seconds && a.rows == b.rows
}

// The recovery with a second serial for a place, and all else as it was.
fn with_second(r: Recovery, place: usize, x: u32) -> Recovery {
    let mut next = r;
    if place < 128 {
        next.seconds[place] = x;
    }
    next
}

// 1 where a giving with this answer left what it should: the second serial and no more, and nothing new where it was refused.
pub fn left(old: Recovery, place: usize, x: u32, answer: u64, new: Recovery) -> u64 {
    if answer == outcomes::GIVEN {
        return outcomes::truth(same(with_second(old, place, x), new));
    }
    outcomes::truth(same(old, new))
}

fn laid(pile: Pile, c: Case, place: usize) -> Pile {
    if cases::is_absent(c, place) {
        return pile;
    }
    let kind = cases::kind(c, place);
    matrices::with(pile, kind, place, cases::mourned(c, place))
}

// All records of a case, whether they are taken or not.
pub fn whole(c: Case) -> Pile {
    let pile = laid(matrices::no_pile(), c, 0);
    let pile = laid(pile, c, 1);
    let pile = laid(pile, c, 2);
    laid(pile, c, 3)
}

// The record of a place offered once more, unless it is absent.
fn again(c: Case, r: Recovery, t: Tally, place: usize) -> Tally {
    if cases::is_absent(c, place) {
        return t;
    }
    let kind = cases::kind(c, place);
    let got = piles::offer(c.n, &r, kind, place, cases::mourned(c, place));
    let answer = got.answer;
    let left = got.recovery;
    let came = outcomes::reply(answer);
    let t = cases::held(t, c, b"offer again", place as u64, REPEATED, came);
    let equal = outcomes::truth(same(r, left));
    cases::held(t, c, b"equal after offering again", place as u64, 1, equal)
}

// The records of a case in its order, beside the same in order 0.
pub fn played(list: &[u32], c: Case, t: Tally) -> Tally {
    if !matrices::some_fits(list, whole(c)) {
        return t;
    }
    let first = Case {
        n: c.n,
        pile: c.pile,
        order: 0,
    };
    let one = piles::offers(list, first, t);
    let one = one.recovery;
    let other = piles::offers(list, c, t);
    let r = other.recovery;
    let t = other.tally;
    let equal = outcomes::truth(same(one, r));
    let t = cases::held(t, c, b"equal to order", 0, 1, equal);
    let t = again(c, r, t, 0);
    let t = again(c, r, t, 1);
    let t = again(c, r, t, 2);
    again(c, r, t, 3)
}
