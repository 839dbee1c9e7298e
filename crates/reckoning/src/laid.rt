// Matrices as bytes: a row of 16 bytes for each place. A history is lent with bytes 0xff past its rows, a buffer to be written with 0xaa.
ghost use Rattle.std.specs.Prelude.{◌<◌};

use crate::matrices;

// Lays a row: its first byte has a bit for each place, the others have none.
fn lay_row(m: u32, n: usize, q: usize, out: &mut [u8; 80])
    requires { q < 5 }
{
    let at = 16 * q;
    let fill = if q < n { 0 } else { 0xff };
    out[at..at + 16].fill(fill);
    if q < n {
        out[at] = matrices::row(m, q) as u8;
    }
}

// Lays a matrix.
pub fn lay(m: u32, n: usize, out: &mut [u8; 80]) {
    for q in 0..5 {
        lay_row(m, n, q, out);
    }
}

// Whether the bytes of a row after its first are all this one.
fn rest_is(bytes: &[u8; 80], q: usize, x: u8) -> bool
    requires { q < 5 }
{
    let at = 16 * q;
    let mut differing = 0;
    for k in 1..16 {
        differing |= bytes[at + k] ^ x;
    }
    differing == 0
}

// The matrix with a row that was read, or with a mark that none has where it is not what a row can be or was not to be written.
fn with_row(m: u32, n: usize, q: usize, bytes: &[u8; 80]) -> u32
    requires { q < 5 }
{
    let first = bytes[16 * q];
    if n <= q {
        if first == 0xaa && rest_is(bytes, q, 0xaa) {
            return m;
        }
        return m | 0x10000;
    }
    let m = if rest_is(bytes, q, 0) { m } else { m | 0x20000 };
    if 15 < first {
        return m | 0x40000;
    }
    m | matrices::at_row(q, first as u32)
}

// The matrix that was laid into a buffer; for no rows, 0 where nothing was.
pub fn read(n: usize, bytes: &[u8; 80]) -> u32 {
    let mut m = 0;
    for q in 0..5 {
        m = with_row(m, n, q, bytes);
    }
    m
}

fn expected(made: &[u8], at: usize, i: usize) -> u8 {
    if i < at {
        return 0xaa;
    }
    if i - at < made.len() {
        return made[i - at];
    }
    0xaa
}

// Whether a buffer has these bytes from a position on, and was not touched elsewhere.
pub fn has_only(bytes: &[u8; 80], at: usize, made: &[u8]) -> bool {
    bytes
        .iter()
        .enumerate()
        .all(|(i, x)| *x == expected(made, at, i))
}
