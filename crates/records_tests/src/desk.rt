// What the ticket desk is shown of a record: its kind, its own serial as stored, and the part of its bytes with the roster's serials.
ghost use Rattle.std.specs.Prelude.{◌≤◌};

use crate::{lists, reading, say, streams};
use histories::Kind;
use sets::Place;
use std::io::{self, Stdout};

// For the group of 1 and 2 whose second serials are 8 and 9.
pub fn seen(to: Stdout, name: &[u8], bytes: &[u8]) -> io::Result<()> {
    let firsts = [1u32, 2];
    let seconds = [8u32, 9];
    let mut roster = &bytes[..0];
    let got = records::read_desk(bytes, &firsts, &seconds, &mut roster);
    say::sight(to, name, got, roster)
}

// For a group without second serials, over a slice that is there before.
fn over(to: Stdout, name: &[u8], bytes: &[u8], before: usize) -> io::Result<()> {
    let list = [0u32; 1];
    let none = &list[..0];
    let mut roster = &bytes[..0];
    if before <= bytes.len() {
        roster = &bytes[..before];
    }
    let got = records::read_desk(bytes, none, none, &mut roster);
    say::sight(to, name, got, roster)
}

// The slice stays the one it was where the record is refused.
pub fn kept(to: Stdout) -> io::Result<()> {
    let whole = b"\x02\x00\x00\x00\x01\x01\x00\x00\x00\x01\x00";
    let cut = b"\x02\x00\x00\x00\x01\x01\x00\x00\x00";
    over(to, b"seen, over a slice of 3", whole, 3)?;
    over(to, b"refused, over a slice of 3", cut, 3)?;
    over(to, b"refused, over all of it", cut, 9)
}

// 1 where the desk is shown something of bytes that `read_lone` refuses by a number, 0 elsewhere.
fn shown_but_refused(bytes: &[u8], fault: u8) -> usize
    ensures { result ≤ 1 }
{
    let list = [0u32; 1];
    let none = &list[..0];
    let mut roster = &bytes[..0];
    let got = records::read_desk(bytes, none, none, &mut roster);
    if got.is_err() {
        return 0;
    }
    streams::one_if(reading::read_lone(bytes), fault)
}

// How many cuts of the bytes, from none of them on, are shown to the desk and so refused.
fn cuts(bytes: &[u8], fault: u8) -> usize {
    let mut n = 0;
    for k in 0..bytes.len() {
        n += shown_but_refused(&bytes[..k], fault);
    }
    n
}

// Every cut of a good record of 27 bytes, 9 of them after its roster's end.
pub fn all_cuts(to: Stdout) -> io::Result<()> {
    let bytes =
        b"\x02\x00\x00\x00\x09\x03\x00\x00\x00\x07\x00\x00\x00\x09\x00\x00\x00\x0c\x02\x00\x00\x00\x07\x00\x00\x00\x0c";
    for fault in 1u8..9 {
        say::text(to, b"cuts that the desk is shown and read_lone refuses by ")?;
        say::number(to, fault as usize)?;
        say::count(to, b"", cuts(bytes, fault))?;
    }
    Ok(())
}

// The first n bytes of a record for a group without second serials: whether they are shown, and how long the part is.
fn front(to: Stdout, name: &[u8], bytes: &[u8], n: usize) -> io::Result<()> {
    if bytes.len() < n {
        return Ok(());
    }
    let those = &bytes[..n];
    let list = [0u32; 1];
    let none = &list[..0];
    let mut roster = &those[..0];
    let got = records::read_desk(those, none, none, &mut roster);
    say::count(to, name, usize::from(got.is_ok()))?;
    say::count(to, b"bytes in its part", roster.len())
}

// The longest record, cut at its roster's end, and one byte before.
pub fn longest(to: Stdout) -> io::Result<()> {
    let mut list = [0u32; 128];
    lists::fill(&mut list, 65536);
    let mut out = [0u8; 1031];
    let all = places::below(128);
    let _ = writes::write(Kind::Full, Place(127), &list, all, &mut out, 0);
    front(to, b"the longest record is shown", &out, 1031)?;
    front(to, b"cut at its roster's end", &out, 518)?;
    front(to, b"cut one byte earlier", &out, 517)
}
