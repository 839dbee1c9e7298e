// The second reckoning of board swaps, over small numbers: a group of two places, whose first serials are 1 and 2.
ghost use Rattle.std.specs.Prelude.{◌≤◌};

use crate::outcomes;

// At most three serials; those past their number are not looked at.
#[derive(Clone, Copy)]
pub struct Few {
    pub n: usize,
    pub a: u32,
    pub b: u32,
    pub c: u32,
}

// The second serials of the two places, 0 for none.
#[derive(Clone, Copy)]
pub struct Boards {
    pub of_0: u32,
    pub of_1: u32,
}

pub fn no_boards() -> Boards {
    Boards { of_0: 0, of_1: 0 }
}

fn has_one(b: Boards, place: usize) -> bool {
    if place == 0 {
        return b.of_0 != 0;
    }
    b.of_1 != 0
}

// What finding a serial says: a place by its first or by its second serial, or nothing.
pub fn found(b: Boards, x: u32) -> u64 {
    if x == 0 {
        return outcomes::NOTHING;
    }
    if x < 3 {
        return (x - 1) as u64;
    }
    if x == b.of_0 {
        return outcomes::SECOND;
    }
    if x == b.of_1 {
        return outcomes::SECOND + 1;
    }
    outcomes::NOTHING
}

// What giving a place a second serial says: 12, 4, 16, or given.
pub fn given(b: Boards, place: usize, x: u32) -> u64 {
    if 1 < place {
        return 12;
    }
    if x == 0 {
        return 4;
    }
    if found(b, x) != outcomes::NOTHING {
        return 16;
    }
    if has_one(b, place) {
        return 16;
    }
    outcomes::GIVEN
}

// The second serials after a giving with that answer.
pub fn after(b: Boards, place: usize, x: u32, answer: u64) -> Boards {
    if answer != outcomes::GIVEN {
        return b;
    }
    if place == 0 {
        return Boards {
            of_0: x,
            of_1: b.of_1,
        };
    }
    Boards {
        of_0: b.of_0,
        of_1: x,
    }
}

// Where a serial stands among a few, or 3.
fn position(list: Few, x: u32) -> usize
    ensures { result ≤ 3 }
{
    if 0 < list.n && list.a == x {
        return 0;
    }
    if 1 < list.n && list.b == x {
        return 1;
    }
    if 2 < list.n && list.c == x {
        return 2;
    }
    3
}

// The first serial of the place that has this second one, or 0.
fn first_of(b: Boards, x: u32) -> u32 {
    if x == 0 {
        return 0;
    }
    if x == b.of_0 {
        return 1;
    }
    if x == b.of_1 {
        return 2;
    }
    0
}

// Where an own or a mourned serial stands on a record's roster: as itself, or else by the first serial to which it is second; or 3.
fn stands(b: Boards, roster: Few, x: u32) -> usize
    ensures { result ≤ 3 }
{
    let itself = position(roster, x);
    if itself < 3 {
        return itself;
    }
    position(roster, first_of(b, x))
}

// The fault of a mourned serial that has to stand from a place on: 4, 6, 7, or 0.
fn fault(b: Boards, roster: Few, x: u32, from: usize) -> u64 {
    if x == 0 {
        return 4;
    }
    let place = stands(b, roster, x);
    if place == 3 {
        return 6;
    }
    if place < from {
        return 7;
    }
    0
}

// The fault of up to two mourned serials: too many for the roster, or the first that one of them has.
fn mourned_fault(b: Boards, roster: Few, mourned: Few) -> u64 {
    if roster.n < mourned.n {
        return 3;
    }
    if mourned.n == 0 {
        return 0;
    }
    let first = fault(b, roster, mourned.a, 0);
    if first != 0 || mourned.n == 1 {
        return first;
    }
    fault(b, roster, mourned.b, stands(b, roster, mourned.a) + 1)
}

// The faults of a record: 4 and 6 for its own serial, and those of its mourned ones.
fn record_fault(b: Boards, roster: Few, own: u32, mourned: Few) -> u64 {
    if own == 0 {
        return 4;
    }
    if stands(b, roster, own) == 3 {
        return 6;
    }
    mourned_fault(b, roster, mourned)
}

fn is_the_group(roster: Few) -> bool {
    roster.n == 2 && roster.a == 1 && roster.b == 2
}

// Whether the owner of a record mourns itself.
fn mourns_itself(b: Boards, roster: Few, own: u32, mourned: Few) -> bool {
    let place = stands(b, roster, own);
    if 0 < mourned.n && stands(b, roster, mourned.a) == place {
        return true;
    }
    1 < mourned.n && stands(b, roster, mourned.b) == place
}

// What offering a record says where nobody is back.
pub fn offered(b: Boards, roster: Few, own: u32, mourned: Few) -> u64 {
    let fault = record_fault(b, roster, own, mourned);
    if fault != 0 {
        return fault;
    }
    if !is_the_group(roster) {
        return 9;
    }
    if mourns_itself(b, roster, own, mourned) {
        return 11;
    }
    outcomes::TAKEN
}
