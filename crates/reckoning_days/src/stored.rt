// Records of this program's own making, byte by byte: at most three controllers. A buffer has 64 bytes, 0xaa where nothing was written.
use crate::plain;

// The serials of the rosters; the first two are the roster of two.
pub fn serials() -> [u32; 3] {
    [0x01020304, 0xfffefdfc, 0x00010000]
}

fn serial(place: usize) -> u32 {
    match place {
        0 => 0x01020304,
        1 => 0xfffefdfc,
        _ => 0x00010000,
    }
}

// Lays a serial where there is room, and says where the next stands.
fn put_serial(out: &mut [u8; 64], at: usize, x: u32) -> usize {
    if 60 < at {
        return at;
    }
    out[at] = (x / 16777216) as u8;
    out[at + 1] = (x / 65536 % 256) as u8;
    out[at + 2] = (x / 256 % 256) as u8;
    out[at + 3] = (x % 256) as u8;
    at + 4
}

// The serial of a place, if the place stands in a set.
fn put_member(out: &mut [u8; 64], at: usize, set: u32, place: usize) -> usize {
    if set & plain::bit(place) == 0 {
        return at;
    }
    put_serial(out, at, serial(place))
}

// The serials of a set, after their count.
fn put_set(out: &mut [u8; 64], from: usize, set: u32) -> usize {
    if 63 < from {
        return from;
    }
    out[from] = plain::size(set);
    let at = put_member(out, from + 1, set, 0);
    let at = put_member(out, at, set, 1);
    put_member(out, at, set, 2)
}

// The record of a place that mourns a set, and where it ends.
pub fn record(out: &mut [u8; 64], kind: u8, n: usize, place: usize, mourned: u32) -> usize {
    out[0] = kind;
    let at = put_serial(out, 1, serial(place));
    let at = put_set(out, at, plain::all(n));
    put_set(out, at, mourned)
}

fn expected(made: &[u8], at: usize, i: usize) -> u8 {
    if i < at {
        return 0xaa;
    }
    if i - at < made.len() {
        return made[i - at];
    }
    0xaa
}

// Whether a buffer has these bytes from a position on, and was not touched elsewhere.
pub fn has_only(bytes: &[u8; 64], at: usize, made: &[u8]) -> bool {
    bytes
        .iter()
        .enumerate()
        .all(|(i, x)| *x == expected(made, at, i))
}
