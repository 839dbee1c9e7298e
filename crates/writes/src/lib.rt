// Writing stored records: a record laid into a lent buffer from a position on. Each section writer lays its bytes into the front of the part
// that is lent to it.
#![tactic(auto)]

ghost use Rattle.std.specs.Prelude.{◌≡◌, ◌∷◌, ◌+◌, ◌*◌, ◌≤◌, ◌<◌, length};
ghost use Rattle.sets.specs.Sets.{count};
ghost use Rattle.sets.specs.PlaceSets.{has};
ghost use Rattle.layouts.specs.Layout.{kind_byte, serial_bytes, serials_bytes, chosen};
ghost use Rattle.layouts.specs.Records.{written};
ghost use Rattle.layouts.specs.Parts.{record_bytes};
ghost use Rattle.layouts.specs.Fronts.{front};

use histories::Kind;
use refusals::Refusal;
use sets::{Place, PlaceSet};

fn kind_byte(kind: Kind) -> u8
    ensures { result ≡ kind_byte kind }
{
    kind as u8
}

// How many places below n are members.
fn count_below(s: PlaceSet, n: usize) -> usize
    requires { n ≤ 128 }
    ensures { result ≡ count n (has s) }
{
    let first = places::below(n);
    let on = places::intersection(s, first);
    places::count(on)
}

fn put_serial(out: &mut [u8], x: u32)
    requires { 4 ≤ length out.old }
    ensures { out.new ≡ front (serial_bytes x) out.old }
{
    out[..4].copy_from_slice(&x.to_be_bytes());
}

fn put_serials(out: &mut [u8], list: &[u32])
    requires { length list.now * 4 ≤ length out.old }
    ensures { out.new ≡ front (serials_bytes list.now) out.old }
{
    for (i, x) in list.iter().enumerate() {
        let p = i * 4;
        put_serial(&mut out[p..], *x);
    }
}

// The serials whose places are in the set, in roster order.
fn put_chosen(out: &mut [u8], roster: &[u32], set: PlaceSet)
    requires { length (chosen (has set) roster.now) * 4 ≤ length out.old }
    ensures { out.new ≡ front (serials_bytes (chosen (has set) roster.now)) out.old }
{
    let mut p = 0;
    for (i, x) in roster.iter().enumerate() {
        if places::contains(set, Place(i)) {
            put_serial(&mut out[p..], *x);
            p += 4;
        }
    }
}

// Kind and own serial.
fn put_top(out: &mut [u8], kind: Kind, own: u32)
    requires { 5 ≤ length out.old }
    ensures { out.new ≡ front (kind_byte kind ∷ serial_bytes own) out.old }
{
    out[0] = kind_byte(kind);
    put_serial(&mut out[1..], own);
}

// The roster's section.
fn put_roster(out: &mut [u8], roster: &[u32])
    requires roster_len_bound { length roster.now ≤ 128 }
    requires roster_in_bounds { 1 + length roster.now * 4 ≤ length out.old }
    ensures { out.new ≡ front (length roster.now ∷ serials_bytes roster.now) out.old }
{
    out[0] = roster.len() as u8;
    put_serials(&mut out[1..], roster);
}

// The mourned section, of m serials.
fn put_mourned(out: &mut [u8], roster: &[u32], set: PlaceSet, m: usize)
    requires m_bound { m ≤ 128 }
    requires m_value { m ≡ length (chosen (has set) roster.now) }
    requires m_in_bounds { 1 + m * 4 ≤ length out.old }
    ensures { out.new ≡ front (m ∷ serials_bytes (chosen (has set) roster.now)) out.old }
{
    out[0] = m as u8;
    put_chosen(&mut out[1..], roster, set);
}

// The three sections of a record, one after the other.
fn put_record(out: &mut [u8], kind: Kind, own: usize, roster: &[u32], set: PlaceSet, m: usize)
    requires own_in_bounds { own < length roster.now }
    requires roster_len_bound { length roster.now ≤ 128 }
    requires m_bound { m ≤ 128 }
    requires m_value { m ≡ length (chosen (has set) roster.now) }
    requires m_in_bounds { 7 + length roster.now * 4 + m * 4 ≤ length out.old }
    ensures { out.new ≡ front (record_bytes kind own roster.now (has set)) out.old }
{
    let p = 6 + roster.len() * 4;
    put_top(out, kind, roster[own]);
    put_roster(&mut out[5..], roster);
    put_mourned(&mut out[p..], roster, set, m);
}

// Lays the record of the member at `own` into the buffer from a position on. It refuses by 12 a place off the roster, by 3 a
// roster above 128, by 13 a buffer that is too short from there on, and then changes nothing.
pub fn write(
    kind: Kind,
    own: Place,
    roster: &[u32],
    mourned: PlaceSet,
    out: &mut [u8],
    at: usize,
) -> Result<usize, Refusal>
    ensures value { result ≡ (written kind own.0 roster.now (has mourned) out.old at).answer }
    ensures out_after { out.new ≡ (written kind own.0 roster.now (has mourned) out.old at).buffer }
{
    let n = roster.len();
    if n <= own.0 {
        return Err(Refusal::OffRoster);
    }
    if 128 < n {
        return Err(Refusal::BadCount);
    }
    let m = count_below(mourned, n);
    let size = 7 + n * 4 + m * 4;
    if out.len() < at {
        return Err(Refusal::TooShort);
    }
    if out.len() - at < size {
        return Err(Refusal::TooShort);
    }
    put_record(&mut out[at..], kind, own.0, roster, mourned, m);
    Ok(at + size)
}
