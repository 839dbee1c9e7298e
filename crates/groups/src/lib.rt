// A group's serials, by its parts: how many places there are, their first serials, and their second ones, 0 where a place has none. Serials
// behind the roster are not looked at.
#![tactic(auto)]

ghost use Rattle.std.specs.Prelude.{◌≡◌, not, eqb, length, get_or};
ghost use Rattle.layouts.specs.Records.{reading_lone};
ghost use Rattle.answers.specs.Groups.{roster_length, alias_in, found_among, is_found, giving};

use layouts::Record;
use refusals::Refusal;
use serials::{Finding, Serial};
use sets::Place;

// How many of the serials are the roster's: one for each place, and no more than there are.
pub fn roster_length(count: usize, serials: &[u32]) -> usize
    ensures { result ≡ roster_length count (length serials.now) }
{
    let n = standings::size(count);
    if n < serials.len() {
        return n;
    }
    serials.len()
}

// The place of a serial, as the first or as the second serial of it.
pub fn find<'a>(
    count: usize,
    serials: &'a [u32],
    seconds: &'a [u32],
    serial: Serial,
) -> Option<Finding>
    ensures { result ≡ found_among count serials.now seconds.now serial.0 }
{
    let n = roster_length(count, serials);
    let m = roster_length(count, seconds);
    lookups::look_up(&serials[..n], 0, &serials[..n], &seconds[..m], serial)
}

// Reads a lone record, whose own and mourned serials may be second ones of this group.
pub fn read_lone<'a>(
    count: usize,
    serials: &'a [u32],
    seconds: &'a [u32],
    bytes: &[u8],
) -> Result<Record, Refusal>
    ensures { result ≡ reading_lone (alias_in count serials.now seconds.now) bytes.now }
{
    let n = roster_length(count, serials);
    let m = roster_length(count, seconds);
    readings::read_lone(bytes, &serials[..n], &seconds[..m])
}

// Whether a serial is known in the group.
fn is_known<'a>(count: usize, serials: &'a [u32], seconds: &'a [u32], serial: Serial) -> bool
    ensures { result ≡ is_found (found_among count serials.now seconds.now serial.0) }
{
    find(count, serials, seconds, serial).is_some()
}

// Whether a place has a second serial.
fn has_second(seconds: &[u32], place: Place) -> bool
    ensures { result ≡ not (eqb (get_or seconds.now place.0 0) 0) }
{
    let p = place.0;
    if seconds.len() <= p {
        return false;
    }
    seconds[p] != 0
}

// Whether a place may be given this second serial: 12 off the roster, 4 for 0, 16 for a serial that is known or a place that has one.
pub fn may_give<'a>(
    count: usize,
    serials: &'a [u32],
    seconds: &'a [u32],
    place: Place,
    serial: Serial,
) -> Result<(), Refusal>
    ensures { result ≡ giving count serials.now seconds.now place.0 serial.0 }
{
    let n = standings::size(count);
    if n <= place.0 {
        return Err(Refusal::OffRoster);
    }
    if serial.0 == 0 {
        return Err(Refusal::ZeroSerial);
    }
    if is_known(count, serials, seconds, serial) {
        return Err(Refusal::KnownSerial);
    }
    if has_second(seconds, place) {
        return Err(Refusal::KnownSerial);
    }
    Ok(())
}
