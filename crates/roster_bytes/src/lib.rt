// Serials and rosters in stored bytes, four bytes a serial, the highest first: read with their faults, compared with a list, copied.
#![tactic(auto)]

ghost use Rattle.std.specs.Prelude.{◌≡◌, [], ◌+◌, ◌*◌, ◌≤◌, ◌<◌, length, take, drop, IfOk, OnOk};
ghost use Rattle.layouts.specs.Layout.{serial, roster_section, word_at, roster_serials};
ghost use Rattle.layouts.specs.Records.{serials, roster_there, same_list, roster_is, copiable, copied};
ghost use Rattle.layouts.specs.Parts.{roster_fault, section_by, Rostered, alike};

use refusals::Refusal;
use serials::Serial;

// The serial whose four bytes start at a position, the highest first.
fn serial_at(bytes: &[u8], at: usize) -> Serial
    requires { at + 4 ≤ length bytes.now }
    ensures { result.0 ≡ word_at bytes.now at }
{
    Serial(u32::from_be_bytes([bytes[at], bytes[at + 1], bytes[at + 2], bytes[at + 3]]))
}

// How many of n serials are there from a position on.
fn serials_there(bytes: &[u8], at: usize, n: usize) -> usize
    requires { at ≤ length bytes.now }
    ensures { (result ≤ n) × (at + result * 4 ≤ length bytes.now) × (result < n → length bytes.now < at + result * 4 + 4) }
{
    n.min((bytes.len() - at) / 4)
}

// Whether n serials are there, from any position on.
fn all_there(bytes: &[u8], at: usize, n: usize) -> bool
    ensures { result ≡ roster_there bytes.now at n }
{
    if bytes.len() < at {
        return false;
    }
    n <= (bytes.len() - at) / 4
}

// Decodes the serials from a position on, as many as the list has room for.
fn decode(bytes: &[u8], at: usize, list: &mut [u32])
    requires { at + length list.old * 4 ≤ length bytes.now }
    ensures { list.new ≡ serials (length list.old) (drop at bytes.now) }
{
    for (i, x) in list.iter_mut().enumerate() {
        *x = serial_at(bytes, at + i * 4).0;
    }
}

// The first fault of a roster of `count` serials, of which those of the list are there.
fn roster_fault(list: &[u32], count: usize) -> Result<(), Refusal>
    ensures { result ≡ roster_fault count [] list.now }
{
    rosters::first_fault(list)?;
    if list.len() < count {
        return Err(Refusal::EndsEarly);
    }
    Ok(())
}

// The serials of a roster of `count` from a position on, into the front of the list, or their first fault.
fn read_serials(bytes: &[u8], at: usize, count: usize, list: &mut [u32; 128]) -> Result<(), Refusal>
    requires at_in_bounds { at ≤ length bytes.now }
    requires count_bound { count ≤ 128 }
    ensures bytes_value { roster_serials count [] (drop at bytes.now) ≡ section_by result (λ _. take count list.new) (λ _. drop (at + count * 4) bytes.now) }
    ensures rostered { OnOk result (Rostered bytes.now at count list.new) }
{
    let m = serials_there(bytes, at, count);
    decode(bytes, at, &mut list[..m]);
    roster_fault(&list[..m], count)
}

// Whether n of the serials that start at a position are the list's, from an entry on. The loop has no early end, so that it runs on
// vectors.
fn same_part(bytes: &[u8], at: usize, list: &[u32], start: usize, n: usize) -> bool
    requires bytes_in_bounds { at + length list.now * 4 ≤ length bytes.now }
    requires list_in_bounds { start + n ≤ length list.now }
    ensures { result ≡ alike n bytes.now (at + start * 4) list.now start }
{
    let mut same = true;
    for i in start..start + n {
        same &= serial_at(bytes, at + i * 4).0 == list[i];
    }
    same
}

// Whether the serials from a position on are the list's, as many as it has: sixteen at a turn, so that lists that differ early take little.
fn same_serials(bytes: &[u8], at: usize, list: &[u32]) -> bool
    requires { at + length list.now * 4 ≤ length bytes.now }
    ensures { result ≡ same_list (serials (length list.now) (drop at bytes.now)) list.now }
{
    let turns = list.len() / 16;
    for turn in 0..turns {
        if !same_part(bytes, at, list, turn * 16, 16) {
            return false;
        }
    }
    let start = turns * 16;
    same_part(bytes, at, list, start, list.len() - start)
}

// Whether the `count` serials from a position on are all there and are this list, order included.
pub fn roster_is(bytes: &[u8], at: usize, count: usize, list: &[u32]) -> bool
    ensures { result ≡ roster_is bytes.now at count list.now }
{
    if !all_there(bytes, at, count) {
        return false;
    }
    if list.len() != count {
        return false;
    }
    same_serials(bytes, at, list)
}

// Copies the `count` serials from a position on into the front of the list; where they are not all there, or are above 128, it
// says so and changes nothing.
pub fn copy_roster(bytes: &[u8], at: usize, count: usize, list: &mut [u32; 128]) -> bool
    ensures value { result ≡ copiable bytes.now at count }
    ensures list_after { list.new ≡ copied bytes.now at count list.old }
{
    if !all_there(bytes, at, count) {
        return false;
    }
    if 128 < count {
        return false;
    }
    decode(bytes, at, &mut list[..count]);
    true
}

// Reads the serial whose four bytes start at a position: 1 where they are not all there, 4 where it is 0.
pub fn read_serial(bytes: &[u8], at: usize) -> Result<Serial, Refusal>
    ensures bytes_value { serial (drop at bytes.now) ≡ section_by result (λ x. x.0) (λ _. drop (at + 4) bytes.now) }
    ensures at_in_bounds { OnOk result (at + 4 ≤ length bytes.now) }
{
    if !all_there(bytes, at, 1) {
        return Err(Refusal::EndsEarly);
    }
    let x = serial_at(bytes, at);
    if x.0 == 0 {
        return Err(Refusal::ZeroSerial);
    }
    Ok(x)
}

// Reads the roster's section at a position, its serials into the front of the list: 1, 3, 4 or 5, whichever comes first, or how many there are.
pub fn read_roster(bytes: &[u8], at: usize, list: &mut [u32; 128]) -> Result<usize, Refusal>
    ensures bytes_value { roster_section (drop at bytes.now) ≡ section_by result (λ n. take n list.new) (λ n. drop (at + 1 + n * 4) bytes.now) }
    ensures rostered { IfOk result (λ n. Rostered bytes.now (at + 1) n list.new) }
{
    if bytes.len() <= at {
        return Err(Refusal::EndsEarly);
    }
    let n = bytes[at] as usize;
    if n < 1 {
        return Err(Refusal::BadCount);
    }
    if 128 < n {
        return Err(Refusal::BadCount);
    }
    read_serials(bytes, at + 1, n, list)?;
    Ok(n)
}
