// The second reckoning: histories of at most four places, all of them, one after another. A history is a matrix of 16 bits: the row
// of place q is the four bits from 4 q on, and place p its bit p. Listed, it has in its high half all bits of those rows that hold
// everyone before their place.
ghost use Rattle.std.specs.Prelude.{◌<◌, ◌≤◌};

use crate::outcomes;

// What a pile fixes of a listed history: all bits of the returned places' rows, those of the full ones in the high half too, and what
// they are.
#[derive(Clone, Copy)]
pub struct Pile {
    pub mask: u32,
    pub rows: u32,
}

pub fn no_pile() -> Pile {
    Pile { mask: 0, rows: 0 }
}

// The row of place q.
pub fn row(m: u32, q: usize) -> u32
    ensures { result < 16 }
{
    match q {
        0 => m % 16,
        1 => m / 16 % 16,
        2 => m / 256 % 16,
        _ => m / 4096 % 16,
    }
}

// A row's bits where they stand for place q.
pub fn at_row(q: usize, bits: u32) -> u32 {
    match q {
        0 => bits,
        1 => bits << 4,
        2 => bits << 8,
        _ => bits << 12,
    }
}

// Place p as a member of a row.
pub fn bit(p: usize) -> u32 {
    match p {
        0 => 1,
        1 => 2,
        2 => 4,
        _ => 8,
    }
}

// Place p as a member of every row.
pub fn column(p: usize) -> u32 {
    match p {
        0 => 0x1111,
        1 => 0x2222,
        2 => 0x4444,
        _ => 0x8888,
    }
}

// All places of a roster, as a row.
pub fn all_places(n: usize) -> u32 {
    match n {
        1 => 0x1,
        2 => 0x3,
        3 => 0x7,
        _ => 0xf,
    }
}

// All rows of a roster.
fn all_rows(n: usize) -> u32 {
    match n {
        1 => 0x1,
        2 => 0x33,
        3 => 0x777,
        _ => 0xffff,
    }
}

// How many matrices a roster has: 2 to the power n squared.
pub fn all(n: usize) -> u32
    ensures { result ≤ 65536 }
{
    match n {
        1 => 2,
        2 => 16,
        3 => 512,
        _ => 65536,
    }
}

// Matrix number k of a roster.
pub fn spread(n: usize, k: u32) -> u32 {
    match n {
        2 => (k % 4) | (k / 4 % 4) << 4,
        3 => (k % 8) | (k / 8 % 8) << 4 | (k / 64 % 8) << 8,
        _ => k,
    }
}

fn if_member(row: u32, member: u32, bits: u32) -> u32 {
    if row & member == 0 {
        return 0;
    }
    bits
}

// Whom the members of a row heard.
fn heard(m: u32, members: u32) -> u32 {
    if_member(members, 1, row(m, 0))
        | if_member(members, 2, row(m, 1))
        | if_member(members, 4, row(m, 2))
        | if_member(members, 8, row(m, 3))
}

// Each row with the rows of its members.
fn joined(m: u32) -> u32 {
    m | heard(m, row(m, 0))
        | heard(m, row(m, 1)) << 4
        | heard(m, row(m, 2)) << 8
        | heard(m, row(m, 3)) << 12
}

// Everyone before each place, by a chain of up to four steps.
fn before(m: u32) -> u32 {
    joined(joined(m))
}

// Whether a matrix is a history: no bit off the roster, and no place before itself.
pub fn is_history(n: usize, m: u32) -> bool {
    if m & all_rows(n) != m {
        return false;
    }
    before(m) & 0x8421 == 0
}

// All bits of the row of place q where it holds everyone before q, else none.
fn if_holds_all(m: u32, chains: u32, q: usize) -> u32 {
    if row(m, q) == row(chains, q) {
        return at_row(q, 15);
    }
    0
}

// All bits of the rows that hold everyone before their place.
fn holding_all(m: u32) -> u32 {
    let chains = before(m);
    if_holds_all(m, chains, 0)
        | if_holds_all(m, chains, 1)
        | if_holds_all(m, chains, 2)
        | if_holds_all(m, chains, 3)
}

// A history as it is listed.
fn listed(m: u32) -> u32 {
    m | holding_all(m) << 16
}

// The matrix of a listed history.
fn matrix(m: u32) -> u32 {
    m & 0xffff
}

// All histories of a roster, and how many there are: 543 at most.
pub fn gather(n: usize, out: &mut [u32; 1024]) -> usize {
    let mut count = 0;
    for m in 0..65536 {
        if is_history(n, m) && count < 1024 {
            out[count] = listed(m);
            count += 1;
        }
    }
    count
}

// How many histories of a list have these rows under the mask, and no bit of `empty`: both are one test of each.
// `gather` lists 543 at most, so 32 bits count them. There is no `filter`, here and in `in_some`: without its branch four are taken at a time.
pub fn count(list: &[u32], mask: u32, rows: u32, empty: u32) -> usize {
    if rows & empty != 0 {
        return 0;
    }
    let fixed = mask | empty;
    list.iter().fold(0u32, |n, m| {
        n.wrapping_add(u32::from(*m & fixed == rows))
    }) as usize
}

// The matrix of a listed history where it fits, else no bits.
fn if_fits(m: u32, pile: Pile) -> u32 {
    if m & pile.mask != pile.rows {
        return 0;
    }
    matrix(m)
}

// The bits that stand in some history that fits.
fn in_some(list: &[u32], pile: Pile) -> u32 {
    list.iter().fold(0, |bits, m| bits | if_fits(*m, pile))
}

// The pile with a record of place p: its row is the mourned set, and holds everyone before p where the record is full.
pub fn with(pile: Pile, kind: u8, p: usize, mourned: u32) -> Pile {
    let bits = at_row(p, 15);
    let mask = pile.mask | bits;
    let rows = pile.rows | at_row(p, mourned);
    if kind == 1 {
        return Pile {
            mask: mask | bits << 16,
            rows: rows | bits << 16,
        };
    }
    Pile { mask, rows }
}

// The recorded rows, and empty ones for the places that are not back.
pub fn rows(pile: Pile) -> u32 {
    matrix(pile.rows)
}

// The kind of the record of place p.
pub fn kind(pile: Pile, p: usize) -> u8 {
    if pile.mask >> 16 & at_row(p, 15) == 0 {
        return 2;
    }
    1
}

pub fn is_back(pile: Pile, p: usize) -> bool {
    pile.mask & at_row(p, 15) != 0
}

// How many histories fit.
pub fn fitting(list: &[u32], pile: Pile) -> usize {
    count(list, pile.mask, pile.rows, 0)
}

// Whether some history fits.
pub fn some_fits(list: &[u32], pile: Pile) -> bool {
    fitting(list, pile) != 0
}

// The answer for a place: in how many of all fitting histories it is in nobody's row.
pub fn answer(list: &[u32], pile: Pile, all: usize, p: usize) -> u64 {
    let last = count(list, pile.mask, pile.rows, column(p));
    if last == all {
        return outcomes::LAST;
    }
    if last == 0 {
        return outcomes::NOT_LAST;
    }
    outcomes::OPEN
}

// Whether a matrix is a history that fits.
pub fn fits(n: usize, pile: Pile, m: u32) -> bool {
    if !is_history(n, m) {
        return false;
    }
    listed(m) & pile.mask == pile.rows
}

// Whether a matrix is a history and fits, and whether the place is then last in it.
pub fn verdict(n: usize, pile: Pile, p: usize, m: u32) -> u64 {
    if !is_history(n, m) {
        return outcomes::NOTHING;
    }
    if !fits(n, pile, m) {
        return outcomes::FITS_NOT;
    }
    if m & column(p) == 0 {
        return outcomes::LAST;
    }
    outcomes::NOT_LAST
}

// The recorded rows, and for place b a row with p and everyone before p; 0 where b is back or p itself, or where that does not fit.
fn heard_by(n: usize, pile: Pile, p: usize, b: usize) -> u32 {
    if p == b {
        return 0;
    }
    if is_back(pile, b) {
        return 0;
    }
    let known = rows(pile);
    let m = known | at_row(b, bit(p) | row(before(known), p));
    if fits(n, pile, m) {
        return m;
    }
    0
}

fn first_of(a: u32, b: u32) -> u32 {
    if a != 0 {
        return a;
    }
    b
}

// The same for the lowest place where it fits; 0 where there is none.
pub fn lowest_heard(n: usize, pile: Pile, p: usize) -> u32 {
    let low = first_of(heard_by(n, pile, p, 0), heard_by(n, pile, p, 1));
    let high = first_of(heard_by(n, pile, p, 2), heard_by(n, pile, p, 3));
    first_of(low, high)
}

// The matrix of a listed history with the recorded rows put in.
pub fn recorded(pile: Pile, m: u32) -> u32 {
    matrix((m & (0xffff_ffff ^ pile.mask)) | pile.rows)
}

// The places in no recorded row, as bits.
pub fn unmourned(n: usize, pile: Pile) -> u32 {
    let mourned = row(pile.rows, 0) | row(pile.rows, 1) | row(pile.rows, 2) | row(pile.rows, 3);
    all_places(n) & (15 ^ mourned)
}

// Those of them that are not back.
pub fn unmourned_absent(n: usize, pile: Pile) -> u32 {
    let back = (pile.mask & 0x1)
        | (pile.mask & 0x20) >> 4
        | (pile.mask & 0x400) >> 8
        | (pile.mask & 0x8000) >> 12;
    unmourned(n, pile) & (15 ^ back)
}

// How many bits a row has.
pub fn size(row: u32) -> u32 {
    row % 2 + row / 2 % 2 + row / 4 % 2 + row / 8 % 2
}

// The places whose row holds an unmourned place in some history that fits, as bits.
pub fn blocking(list: &[u32], n: usize, pile: Pile) -> u32 {
    let some = in_some(list, pile);
    let free = unmourned(n, pile);
    if_member(row(some, 0), free, 1)
        | if_member(row(some, 1), free, 2)
        | if_member(row(some, 2), free, 4)
        | if_member(row(some, 3), free, 8)
}
