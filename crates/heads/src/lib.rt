// A stored record as far as its roster's end: kind, own serial, roster. The ticket desk sees no more.
#![tactic(auto)]

ghost use Rattle.std.specs.Prelude.{◌≡◌, ◌≤◌, ℕ, ◌+◌, ◌*◌, ◌<◌, length, take, drop, OnOk};
ghost use Rattle.sets.specs.PlaceSets.{found};
ghost use Rattle.serials.specs.Rosters.{place_from};
ghost use Rattle.serials.specs.Seconds.{counts_as, stands_for};
ghost use Rattle.layouts.specs.Parts.{head_on, roster_after, own_after, owner_of, head_of, HeadIn};
ghost use Rattle.layouts.specs.Layout.{head_section};
ghost use Rattle.layouts.specs.Records.{serials};
ghost use Rattle.layouts.specs.Desk.{shown_to_desk, lies_of};

use histories::Kind;
use layouts::{Sight, Top};
use refusals::Refusal;
use serials::{Finding, Serial};
use sets::Place;

// The place of an own or a mourned serial on a record's roster, looked for from a place on first: as a first serial or as a second one.
pub fn locate(
    roster: &[u32],
    from: usize,
    firsts: &[u32],
    seconds: &[u32],
    serial: Serial,
) -> Option<Place>
    ensures { result ≡ found (length roster.now) (place_from from (stands_for (counts_as firsts.now seconds.now) roster.now serial.0) roster.now) }
{
    match lookups::look_up(roster, from, firsts, seconds, serial)? {
        Finding::First(place) => Some(place),
        Finding::Second(place) => Some(place),
    }
}

// The head of a record whose roster, this list, stands at a position: its own serial is looked up there.
pub fn on_roster(
    kind: Kind,
    own: Serial,
    roster: usize,
    list: &[u32],
    firsts: &[u32],
    seconds: &[u32],
) -> Result<Top, Refusal>
    ensures { result ≡ head_on (counts_as firsts.now seconds.now) kind own.0 roster (length list.now) list.now }
{
    let Some(place) = locate(list, 0, firsts, seconds, own) else {
        return Err(Refusal::NotOnRoster);
    };
    Ok(Top {
        kind,
        own,
        place,
        roster,
        count: list.len(),
    })
}

// The same of the first n of a list.
fn on_first(
    kind: Kind,
    own: Serial,
    roster: usize,
    list: &[u32],
    n: usize,
    firsts: &[u32],
    seconds: &[u32],
) -> Result<Top, Refusal>
    requires { n ≤ length list.now }
    ensures { result ≡ head_on (counts_as firsts.now seconds.now) kind own.0 roster n (take n list.now) }
{
    on_roster(kind, own, roster, &list[..n], firsts, seconds)
}

// The roster's section at a position, with the own serial looked up on it.
fn head_roster(
    bytes: &[u8],
    at: usize,
    kind: Kind,
    own: Serial,
    list: &mut [u32; 128],
    firsts: &[u32],
    seconds: &[u32],
) -> Result<Top, Refusal>
    ensures bytes_value { roster_after (counts_as firsts.now seconds.now) kind own.0 (drop at bytes.now) ≡ head_of result bytes.now list.new }
    ensures head_in { HeadIn result bytes.now (at + 1) list.new }
{
    let n = roster_bytes::read_roster(bytes, at, list)?;
    on_first(kind, own, at + 1, list, n, firsts, seconds)
}

// The own serial at a position, of a record whose kind is known.
fn read_own(bytes: &[u8], at: usize, kind: Kind) -> Result<Sight, Refusal>
    ensures by_index { (alias : ℕ → ℕ) → own_after alias kind (drop at bytes.now) ≡ owner_of alias result (drop (at + 4) bytes.now) }
    ensures owner_in { OnOk result (at + 4 ≤ length bytes.now) }
{
    let own = roster_bytes::read_serial(bytes, at)?;
    Ok(Sight { kind, own })
}

// The kind and the own serial of the record that starts at a position: its first five bytes.
pub fn read_owner(bytes: &[u8], at: usize) -> Result<Sight, Refusal>
    ensures by_index { (alias : ℕ → ℕ) → head_section alias (drop at bytes.now) ≡ owner_of alias result (drop (at + 5) bytes.now) }
    ensures owner_in { OnOk result (at + 5 ≤ length bytes.now) }
{
    if bytes.len() <= at {
        return Err(Refusal::EndsEarly);
    }
    let kind = bytes[at];
    match kind {
        1 => read_own(bytes, at + 1, Kind::Full),
        2 => read_own(bytes, at + 1, Kind::Short),
        0 | 3..=255 => Err(Refusal::UnknownKind),
    }
}

// Reads the record that starts at a position as far as its roster's end; the roster's serials go into the front of the list.
pub fn read_head(
    bytes: &[u8],
    at: usize,
    list: &mut [u32; 128],
    firsts: &[u32],
    seconds: &[u32],
) -> Result<Top, Refusal>
    ensures bytes_value { head_section (counts_as firsts.now seconds.now) (drop at bytes.now) ≡ head_of result bytes.now list.new }
    ensures head_in { HeadIn result bytes.now (at + 6) list.new }
{
    let owner = read_owner(bytes, at)?;
    head_roster(bytes, at + 5, owner.kind, owner.own, list, firsts, seconds)
}

// Reads a lone record for the ticket desk, as far as its roster's end. The roster's serials are handed back as a part of the bytes;
// where the record is refused, `roster` stays as it was.
pub fn read_desk<'a>(
    bytes: &'a [u8],
    firsts: &[u32],
    seconds: &[u32],
    roster: &mut &'a [u8],
) -> Result<Sight, Refusal>
    ensures value { result ≡ (shown_to_desk (counts_as firsts.now seconds.now) bytes.now roster.old.now).answer }
    ensures roster_after { roster.new.now ≡ (shown_to_desk (counts_as firsts.now seconds.now) bytes.now roster.old.now).roster }
    ensures ptr_after { roster.new.ref_ptr ≡ lies_of result bytes.entry.ref_ptr roster.old.ref_ptr }
{
    let mut list = [0u32; 128];
    let top = read_head(bytes, 0, &mut list, firsts, seconds)?;
    let start = top.roster;
    let end = start + top.count * 4;
    *roster = &bytes[start..end];
    Ok(Sight {
        kind: top.kind,
        own: top.own,
    })
}
