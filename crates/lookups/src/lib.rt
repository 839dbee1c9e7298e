// Finding a serial on a roster, as a first serial or as a second one.
#![tactic(auto)]

ghost use Rattle.std.specs.Prelude.{◌≡◌, ◌+◌, ◌/◌, ◌<◌, length};
ghost use Rattle.sets.specs.PlaceSets.{found};
ghost use Rattle.serials.specs.Rosters.{place_of, place_from};
ghost use Rattle.serials.specs.Seconds.{counts_as, finding_from};

use serials::{Finding, Serial};
use sets::Place;

// The place of a serial in a list.
pub fn find(roster: &[u32], serial: Serial) -> Option<Place>
    ensures { result ≡ found (length roster.now) (place_of serial.0 roster.now) }
{
    for (p, x) in roster.iter().enumerate() {
        if *x == serial.0 {
            return Some(Place(p));
        }
    }
    None
}

// The same, looking from a place on first: where the serials come in roster order, a walk along the roster finds them all.
fn find_from(roster: &[u32], from: usize, serial: Serial) -> Option<Place>
    ensures { result ≡ found (length roster.now) (place_from from serial.0 roster.now) }
{
    for i in from..roster.len() {
        if roster[i] == serial.0 {
            return Some(Place(i));
        }
    }
    find(roster, serial)
}

// What a serial counts as in a group with these first and second serials: a second one as the first of its place.
fn counts_as(firsts: &[u32], seconds: &[u32], serial: Serial) -> Serial
    ensures { result.0 ≡ counts_as firsts.now seconds.now serial.0 }
{
    if serial.0 == 0 {
        return serial;
    }
    let Some(place) = find(seconds, serial) else {
        return serial;
    };
    let p = place.0;
    if firsts.len() <= p {
        return Serial(0);
    }
    Serial(firsts[p])
}

// The place of a serial on a roster, for a group with these first and second serials; it is looked for from a place on first. A serial of
// the roster is found as itself, and only another by what it counts as in the group.
pub fn look_up(
    roster: &[u32],
    from: usize,
    firsts: &[u32],
    seconds: &[u32],
    serial: Serial,
) -> Option<Finding>
    ensures { result ≡ finding_from (counts_as firsts.now seconds.now) from roster.now serial.0 }
{
    if let Some(place) = find_from(roster, from, serial) {
        return Some(Finding::First(place));
    }
    let other = counts_as(firsts, seconds, serial);
    let place = find_from(roster, from, other)?;
    Some(Finding::Second(place))
}
