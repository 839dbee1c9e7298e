// Records of the test programs' own making, byte by byte, and the serials of their rosters.
ghost use Rattle.std.specs.Prelude.{◌+◌, ◌*◌, ◌≤◌, length};

use crate::parts;

// The serials of the small rosters.
pub fn serials() -> [u32; 6] {
    [65536, 131072, 196608, 262144, 327680, 393216]
}

// The first serial of a small roster's place, or the second one where the place stands in a set.
fn name(swapped: u32, i: usize, first: u32) -> u32 {
    if is_in(swapped, i) {
        return first.wrapping_add(393216);
    }
    first
}

// The serials of the small rosters, second ones for a set of places.
fn names(swapped: u32) -> [u32; 6] {
    [
        name(swapped, 0, 65536),
        name(swapped, 1, 131072),
        name(swapped, 2, 196608),
        name(swapped, 3, 262144),
        name(swapped, 4, 327680),
        name(swapped, 5, 393216),
    ]
}

// The first or the second serial of a small roster's place.
pub fn name_of(place: usize, second: bool) -> u32 {
    let firsts = names(0);
    let seconds = names(63);
    if second {
        return serial(&seconds, place);
    }
    serial(&firsts, place)
}

// A count as a byte, 255 where it has no room.
pub fn byte(n: usize) -> u8 {
    n.min(255) as u8
}

// The serial of a place, 0 where there is none.
pub fn serial(roster: &[u32], place: usize) -> u32 {
    if place < roster.len() {
        return roster[place];
    }
    0
}

fn put_serial(out: &mut [u8; 1100], at: usize, x: u32)
    requires { at + 4 ≤ 1100 }
{
    out[at..at + 4].copy_from_slice(&x.to_be_bytes());
}

fn put_serials(out: &mut [u8; 1100], at: usize, list: &[u32])
    requires { at + 4 * length list.now ≤ 1100 }
{
    for (i, x) in list.iter().enumerate() {
        put_serial(out, at + 4 * i, *x);
    }
}

// Lays a record with both counts as they are given, and says how long it is; 0 for more than 129 serials in a list.
pub fn lay(
    kind: u8,
    own: u32,
    count: u8,
    roster: &[u32],
    mourned_count: u8,
    mourned: &[u32],
    out: &mut [u8; 1100],
) -> usize
    ensures { result ≤ 1100 }
{
    if 129 < roster.len() {
        return 0;
    }
    if 129 < mourned.len() {
        return 0;
    }
    let at = 6 + 4 * roster.len();
    out[0] = kind;
    put_serial(out, 1, own);
    out[5] = count;
    put_serials(out, 6, roster);
    out[at] = mourned_count;
    put_serials(out, at + 1, mourned);
    at + 1 + 4 * mourned.len()
}

// Whether place i stands in a set of places below 6.
fn is_in(set: u32, i: usize) -> bool {
    i < 6 && set >> i & 1 != 0
}

// The serials of a set of places in roster order, and how many they are.
fn select(roster: &[u32], set: u32, out: &mut [u32; 6]) -> usize {
    let mut n = 0;
    for (i, x) in roster.iter().enumerate() {
        if is_in(set, i) && n < 6 {
            out[n] = *x;
            n += 1;
        }
    }
    n
}

// The record of an own serial that mourns a set of places below 6, which are called by these names.
fn named(kind: u8, own: u32, roster: &[u32], names: &[u32], set: u32, out: &mut [u8; 1100]) -> usize
    ensures { result ≤ 1100 }
{
    let mut mourned = [0u32; 6];
    let n = select(names, set, &mut mourned);
    lay(
        kind,
        own,
        byte(roster.len()),
        roster,
        byte(n),
        parts::of_six(&mourned, n),
        out,
    )
}

// The record of a place of a small roster: its own serial is the first or the second one, the mourned ones are second ones for a set.
pub fn mixed(
    kind: u8,
    n: usize,
    place: usize,
    second: bool,
    mourned: u32,
    swapped: u32,
    out: &mut [u8; 1100],
) -> usize
    ensures { result ≤ 1100 }
{
    let roster = serials();
    let called = names(swapped);
    named(
        kind,
        name_of(place, second),
        parts::of_six(&roster, n),
        parts::of_six(&called, n),
        mourned,
        out,
    )
}

// The record of a place that mourns a set of places below 6.
pub fn record(kind: u8, place: usize, roster: &[u32], set: u32, out: &mut [u8; 1100]) -> usize
    ensures { result ≤ 1100 }
{
    named(kind, serial(roster, place), roster, roster, set, out)
}
