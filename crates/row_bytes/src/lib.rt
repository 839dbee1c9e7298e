// A row as 16 bytes, laid and read. With `places` this is the only crate of the library that looks into the two words of a set.
#![tactic(auto)]

ghost use Rattle.std.specs.Prelude.{◌≡◌, ◌++◌, ℕ, ◌*◌, ◌<◌, ◌≤◌, ◌/◌, ◌%◌, length, get_or, drop};
ghost use Rattle.sets.specs.PlaceSets.{bit, has};
ghost use Rattle.rows.specs.Rows.{bytes_from, put_row, row_in};

use sets::{Place, PlaceSet};

// Lays a word's 8 bytes into the front of a buffer, lowest first.
fn put_word(out: &mut [u8], x: u64)
    requires { 8 ≤ length out.old }
    ensures { out.new ≡ bytes_from 8 0 (bit x) ++ drop 8 out.old }
{
    out[..8].copy_from_slice(&x.to_le_bytes());
}

// Lays a row's 16 bytes into a buffer from a position on, where they fit.
pub fn put(out: &mut [u8], at: usize, s: PlaceSet)
    ensures { out.new ≡ put_row out.old at (has s) }
{
    if out.len() < 16 {
        return;
    }
    if out.len() - 16 < at {
        return;
    }
    let half = at + 8;
    put_word(&mut out[at..], s.low);
    put_word(&mut out[half..], s.high);
}

// The word whose 8 bytes, lowest first, stand at the front.
fn read_word(bytes: &[u8]) -> u64
    requires { 8 ≤ length bytes.now }
    ensures { (k : ℕ) → k < 64 → bit result k ≡ bit (get_or bytes.now (k / 8) 0) (k % 8) }
{
    u64::from_le_bytes([
        bytes[0], bytes[1], bytes[2], bytes[3], bytes[4], bytes[5], bytes[6], bytes[7],
    ])
}

// The row of a place among rows of 16 bytes each: empty where its bytes are not all there.
pub fn read(bytes: &[u8], place: Place) -> PlaceSet
    ensures { has result ≡ row_in bytes.now (16 * place.0) }
{
    let p = place.0;
    if bytes.len() / 16 <= p {
        return places::empty();
    }
    let at = 16 * p;
    let half = at + 8;
    PlaceSet {
        low: read_word(&bytes[at..]),
        high: read_word(&bytes[half..]),
    }
}
