// Whole records in longer bytes: document 01's listing, every cut of a record, and records of 128 members and of 33.
ghost use Rattle.std.specs.Prelude.{◌≤◌};

use crate::{lists, reading, say};
use histories::Kind;
use records::Record;
use refusals::Refusal;
use sets::Place;
use std::io::{self, Stdout};

// 1 where the reading was refused by a number, 0 elsewhere.
pub fn one_if(got: Result<Record, Refusal>, fault: u8) -> usize
    ensures { result ≤ 1 }
{
    match got {
        Err(refusal) if refusal as u8 == fault => 1,
        _ => 0,
    }
}

// How many cuts of the bytes, from none of them on, are refused by a number.
fn cuts(bytes: &[u8], fault: u8) -> usize {
    let mut n = 0;
    for k in 0..bytes.len() {
        n += one_if(reading::read(&bytes[..k], 0), fault);
    }
    n
}

// Every cut of a good record of 27 bytes, by its refusal.
pub fn all_cuts(to: Stdout) -> io::Result<()> {
    let bytes =
        b"\x02\x00\x00\x00\x09\x03\x00\x00\x00\x07\x00\x00\x00\x09\x00\x00\x00\x0c\x02\x00\x00\x00\x07\x00\x00\x00\x0c";
    for fault in 1u8..9 {
        say::text(to, b"cuts refused by ")?;
        say::number(to, fault as usize)?;
        say::count(to, b"", cuts(bytes, fault))?;
    }
    Ok(())
}

// Document 01's listing: two records, one after the other, and then the end.
pub fn listing(to: Stdout) -> io::Result<()> {
    let bytes =
        b"\x02\x00\x00\x00\x65\x04\x00\x00\x00\x65\x00\x00\x00\x66\x00\x00\x00\x67\x00\x00\x00\x68\x00\x02\x00\x00\x00\x68\x04\x00\x00\x00\x65\x00\x00\x00\x66\x00\x00\x00\x67\x00\x00\x00\x68\x02\x00\x00\x00\x66\x00\x00\x00\x67";
    let first = reading::read(bytes, 0);
    say::reading(to, b"the listing's first", first)?;
    let Ok(one) = first else {
        return Ok(());
    };
    let second = reading::read(bytes, one.next);
    say::reading(to, b"the listing's second", second)?;
    let Ok(two) = second else {
        return Ok(());
    };
    say::reading(to, b"the listing's end", reading::read(bytes, two.next))
}

fn lone(to: Stdout, name: &[u8], bytes: &[u8]) -> io::Result<()> {
    say::reading(to, name, reading::read_lone(bytes))
}

// The 128 serials 65536, 2 x 65536 and so on: each at its place, and a record of them with all mourned, the longest there is.
pub fn longest(to: Stdout) -> io::Result<()> {
    let mut list = [0u32; 128];
    lists::fill(&mut list, 65536);
    say::listed(to, b"65536 to 128 x 65536", rosters::check(&list))?;
    say::count(to, b"of them at their places", lists::at_home(&list))?;
    let mut out = [0u8; 1031];
    let all = places::below(128);
    say::writing(
        to,
        b"the longest record, one byte short",
        writes::write(Kind::Full, Place(127), &list, all, &mut out, 1),
    )?;
    say::writing(
        to,
        b"the longest record",
        writes::write(Kind::Full, Place(127), &list, all, &mut out, 0),
    )?;
    lone(to, b"the longest record, lone", &out)
}

// The same record with other counts, alone and as one of a stream.
fn longest_with(to: Stdout, name: &[u8], roster: u8, mourned: u8) -> io::Result<()> {
    let mut list = [0u32; 128];
    lists::fill(&mut list, 65536);
    let mut out = [0u8; 1031];
    let all = places::below(128);
    let _ = writes::write(Kind::Full, Place(127), &list, all, &mut out, 0);
    out[5] = roster;
    out[518] = mourned;
    lone(to, name, &out)?;
    say::reading(to, b"and as a stream's", reading::read(&out, 0))
}

pub fn other_counts(to: Stdout) -> io::Result<()> {
    longest_with(to, b"with a roster count of 129", 129, 128)?;
    longest_with(to, b"with a roster count of 127", 127, 128)?;
    longest_with(to, b"with a mourned count of 129", 128, 129)?;
    longest_with(to, b"with a mourned count of 1", 128, 1)?;
    longest_with(to, b"with a mourned count of 0", 128, 0)
}

// A record of 33 serials that differ in one bit, all mourned: each is read as its own place.
pub fn one_bit(to: Stdout) -> io::Result<()> {
    let mut list = [0u32; 33];
    lists::one_bit(&mut list, 0x01020304);
    let mut out = [0u8; 271];
    let all = places::below(33);
    say::writing(
        to,
        b"a record of 33 serials that differ in one bit",
        writes::write(Kind::Short, Place(32), &list, all, &mut out, 0),
    )?;
    lone(to, b"and read again", &out)
}
