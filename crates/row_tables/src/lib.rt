// Tables of rows, a row for each of 128 places.
#![tactic(auto)]

ghost use Rattle.std.specs.Prelude.{◌≡◌, cond, ◌&&◌, ◌++◌, ◌*◌, ◌≤◌, leb, length, drop};
ghost use Rattle.rows.specs.Rows.{no_rows, row_at, rows_of, with_row, laid};

use rows::Rows;
use sets::{Place, PlaceSet};

// The table of empty rows.
pub fn none() -> Rows
    ensures { result ≡ no_rows }
{
    [0; 2048]
}

// The row of a place: empty from 128 on.
pub fn get(rows: &Rows, place: Place) -> PlaceSet
    ensures { result ≡ row_at rows.now place.0 }
{
    if 128 <= place.0 {
        return PlaceSet { low: 0, high: 0 };
    }
    row_bytes::read(rows, place)
}

// The row of a place is set: from 128 on nothing changes.
pub fn set(rows: &mut Rows, place: Place, s: PlaceSet)
    ensures { rows.new ≡ with_row rows.old place.0 s }
{
    if place.0 < 128 {
        row_bytes::put(rows, 16 * place.0, s);
    }
}

// Copies bytes into the front of a buffer. `copy_from_slice` calls memmove here, which the archives for C are not to need.
fn copy(out: &mut [u8], bytes: &[u8])
    requires { length bytes.now ≤ length out.old }
    ensures { out.new ≡ bytes.now ++ drop (length bytes.now) out.old }
{
    for (i, byte) in bytes.iter().enumerate() {
        out[i] = *byte;
    }
}

// Lays a table's first n rows into the front of a buffer: where there are not so many, or they do not fit, nothing changes.
pub fn lay(out: &mut [u8], rows: &Rows, n: usize)
    ensures { out.new ≡ cond (leb n 128 && leb (16 * n) (length out.old)) (laid n (rows_of rows.now) out.old) out.old }
{
    if n <= 128 && 16 * n <= out.len() {
        copy(out, &rows[..16 * n]);
    }
}
