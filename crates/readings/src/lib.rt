// Reading stored records: the mourned serials behind a head, a record that others may follow, a lone one, and one whose roster is likely known.
#![tactic(auto)]

ghost use Rattle.std.specs.Prelude.{◌≡◌, [], ◌+◌, ◌*◌, ◌≤◌, ◌<◌, length, drop, true};
ghost use Rattle.sets.specs.Sets.{nothing};
ghost use Rattle.serials.specs.Rosters.{first_repeat};
ghost use Rattle.serials.specs.Seconds.{counts_as};
ghost use Rattle.layouts.specs.Layout.{head_section, mourned_serials, mourned_section};
ghost use Rattle.layouts.specs.Records.{reading, serials, reading_lone};
ghost use Rattle.layouts.specs.Parts.{head_of, HeadIn, mourned_of, MournedIn, tail_of, TailIn, Like};

use layouts::{Record, Tail, Top};
use refusals::Refusal;
use sets::PlaceSet;

// The m serials from a position on as places of the roster, which have to rise. They are looked for along the roster, each
// from the place after the one before it.
fn read_mourned(
    bytes: &[u8],
    at: usize,
    m: usize,
    roster: &[u32],
    firsts: &[u32],
    seconds: &[u32],
) -> Result<PlaceSet, Refusal>
    requires at_in_bounds { at ≤ length bytes.now }
    requires m_bound { m ≤ 128 }
    requires roster_len_bound { length roster.now ≤ 128 }
    requires roster_value { first_repeat [] roster.now ≡ length roster.now }
    ensures bytes_value { mourned_serials (counts_as firsts.now seconds.now) m roster.now 0 nothing (drop at bytes.now) ≡ mourned_of result (drop (at + m * 4) bytes.now) }
    ensures mourned_in { MournedIn result (at + m * 4) (length bytes.now) }
{
    let mut set = places::empty();
    let mut from = 0;
    for j in 0..m {
        let p = at + j * 4;
        let x = roster_bytes::read_serial(bytes, p)?;
        let Some(place) = heads::locate(roster, from, firsts, seconds, x) else {
            return Err(Refusal::NotOnRoster);
        };
        if place.0 < from {
            return Err(Refusal::OutOfOrder);
        }
        set = places::with(set, place);
        from = place.0 + 1;
    }
    Ok(set)
}

// The mourned section at a position, for a roster.
fn read_tail(
    bytes: &[u8],
    at: usize,
    roster: &[u32],
    firsts: &[u32],
    seconds: &[u32],
) -> Result<Tail, Refusal>
    requires at_in_bounds { at ≤ length bytes.now }
    requires roster_len_bound { length roster.now ≤ 128 }
    requires roster_value { first_repeat [] roster.now ≡ length roster.now }
    ensures bytes_value { mourned_section (counts_as firsts.now seconds.now) roster.now (drop at bytes.now) ≡ tail_of result bytes.now }
    ensures tail_in { TailIn result (length bytes.now) }
{
    if bytes.len() <= at {
        return Err(Refusal::EndsEarly);
    }
    let m = bytes[at] as usize;
    if roster.len() < m {
        return Err(Refusal::BadCount);
    }
    let mourned = read_mourned(bytes, at + 1, m, roster, firsts, seconds)?;
    Ok(Tail {
        mourned,
        next: at + 1 + m * 4,
    })
}

// The record that starts at a position, its head read and its roster at the front of the list.
fn read_rest(
    bytes: &[u8],
    at: usize,
    head: Result<Top, Refusal>,
    list: &[u32],
    firsts: &[u32],
    seconds: &[u32],
) -> Result<Record, Refusal>
    requires bytes_value { head_section (counts_as firsts.now seconds.now) (drop at bytes.now) ≡ head_of head bytes.now list.now }
    requires head_in { HeadIn head bytes.now (at + 6) list.now }
    ensures { result ≡ reading (counts_as firsts.now seconds.now) bytes.now at }
{
    let top = head?;
    let roster = top.roster;
    let count = top.count;
    let tail = read_tail(bytes, roster + count * 4, &list[..count], firsts, seconds)?;
    Ok(Record {
        kind: top.kind,
        own: top.place,
        roster,
        count,
        mourned: tail.mourned,
        next: tail.next,
    })
}

// The record that starts at a position; its roster goes into the front of the list.
fn read_into(
    bytes: &[u8],
    at: usize,
    list: &mut [u32; 128],
    firsts: &[u32],
    seconds: &[u32],
) -> Result<Record, Refusal>
    ensures { result ≡ reading (counts_as firsts.now seconds.now) bytes.now at }
{
    let head = heads::read_head(bytes, at, list, firsts, seconds);
    read_rest(bytes, at, head, list, firsts, seconds)
}

// Reads the record that starts at a position; more may follow it. Its own and mourned serials may be second ones of a group with these
// first and second serials, place by place, 0 for no second one; both lists may be empty.
pub fn read(bytes: &[u8], at: usize, firsts: &[u32], seconds: &[u32]) -> Result<Record, Refusal>
    ensures { result ≡ reading (counts_as firsts.now seconds.now) bytes.now at }
{
    let mut list = [0u32; 128];
    read_into(bytes, at, &mut list, firsts, seconds)
}

// Whether the roster's section at a position is of this list, which an order of its places shows to be without fault.
fn is_like(bytes: &[u8], at: usize, list: &[u32], order: &[u8]) -> bool
    ensures { result ≡ true → Like bytes.now at list.now }
{
    if bytes.len() <= at {
        return false;
    }
    let n = bytes[at] as usize;
    if n < 1 {
        return false;
    }
    if 128 < n {
        return false;
    }
    if !roster_bytes::roster_is(bytes, at + 1, n, list) {
        return false;
    }
    orders::rises(list, order)
}

// The same as `read`, and cheap where the record's roster is the group's and its serials rise in this order.
pub fn read_like(
    bytes: &[u8],
    at: usize,
    firsts: &[u32],
    seconds: &[u32],
    order: &[u8],
) -> Result<Record, Refusal>
    ensures { result ≡ reading (counts_as firsts.now seconds.now) bytes.now at }
{
    let owner = heads::read_owner(bytes, at)?;
    if !is_like(bytes, at + 5, firsts, order) {
        return read(bytes, at, firsts, seconds);
    }
    let head = heads::on_roster(owner.kind, owner.own, at + 6, firsts, firsts, seconds);
    read_rest(bytes, at, head, firsts, firsts, seconds)
}

// Reads a lone record, as `read`: bytes after it are refusal 8.
pub fn read_lone(bytes: &[u8], firsts: &[u32], seconds: &[u32]) -> Result<Record, Refusal>
    ensures { result ≡ reading_lone (counts_as firsts.now seconds.now) bytes.now }
{
    let first = read(bytes, 0, firsts, seconds)?;
    if first.next != bytes.len() {
        return Err(Refusal::BytesAfter);
    }
    Ok(first)
}
