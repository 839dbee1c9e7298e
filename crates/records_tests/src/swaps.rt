// Second serials: reading with a group's two lists, of the same length or not, and looking a serial up.
use crate::{lists, say};
use histories::Kind;
use serials::Serial;
use sets::Place;
use std::io::{self, Stdout};

// Reads two records of the roster 1 2 for a group: one with the own serial 8, and one of 1 that mourns 9.
fn both(to: Stdout, name: &[u8], firsts: &[u32], seconds: &[u32]) -> io::Result<()> {
    let own = b"\x02\x00\x00\x00\x08\x02\x00\x00\x00\x01\x00\x00\x00\x02\x00";
    let mourned = b"\x02\x00\x00\x00\x01\x02\x00\x00\x00\x01\x00\x00\x00\x02\x01\x00\x00\x00\x09";
    say::text(to, name)?;
    say::reading(
        to,
        b", own serial 8",
        records::read(own, 0, firsts, seconds),
    )?;
    say::text(to, name)?;
    say::reading(
        to,
        b", mourned 9",
        records::read(mourned, 0, firsts, seconds),
    )
}

// Lists of the group of 1 and 2, and lists that are shorter.
pub fn beside(to: Stdout) -> io::Result<()> {
    let firsts = [1u32, 2];
    let seconds = [8u32, 9, 10];
    let one = [0u32, 9];
    both(to, b"1 2 with 8 9", &firsts, &seconds[..2])?;
    both(to, b"1 2 with 8 9 10", &firsts, &seconds)?;
    both(to, b"1 2 with 8", &firsts, &seconds[..1])?;
    both(to, b"1 2 with 0 9", &firsts, &one)?;
    both(to, b"1 2 with none", &firsts, &seconds[..0])?;
    both(to, b"1 with 8 9", &firsts[..1], &seconds[..2])?;
    both(to, b"none with 8 9", &firsts[..0], &seconds[..2])
}

// Lists of other groups: the record's own roster decides where a serial stands.
pub fn other_groups(to: Stdout) -> io::Result<()> {
    let firsts = [1u32, 2];
    let seconds = [8u32, 9];
    let turned = [2u32, 1];
    let turned_seconds = [9u32, 8];
    let three = [3u32, 1, 2];
    let twice = [8u32, 8];
    both(to, b"2 1 with 9 8", &turned, &turned_seconds)?;
    both(to, b"1 2 with 9 8", &firsts, &turned_seconds)?;
    both(to, b"8 9 with 1 2", &seconds, &firsts)?;
    both(to, b"3 1 2 with 8 9", &three, &seconds)?;
    both(to, b"1 2 with 8 8", &firsts, &twice)
}

// Reads bytes for the group of 1 and 2 with 8 and 9: from a position on, alone, and by the order of its roster.
fn from(to: Stdout, name: &[u8], bytes: &[u8], at: usize) -> io::Result<()> {
    let firsts = [1u32, 2];
    let seconds = [8u32, 9];
    say::reading(to, name, records::read(bytes, at, &firsts, &seconds))
}

fn alone(to: Stdout, name: &[u8], bytes: &[u8]) -> io::Result<()> {
    let firsts = [1u32, 2];
    let seconds = [8u32, 9];
    say::reading(to, name, records::read_lone(bytes, &firsts, &seconds))
}

fn by_order(to: Stdout, name: &[u8], bytes: &[u8]) -> io::Result<()> {
    let firsts = [1u32, 2];
    let seconds = [8u32, 9];
    let order = [0u8, 1];
    say::reading(
        to,
        name,
        records::read_like(bytes, 0, &firsts, &seconds, &order),
    )
}

// A record of 8 that mourns 9 among other bytes, cut, and alone.
pub fn positions(to: Stdout) -> io::Result<()> {
    let bytes =
        b"\xff\xff\x02\x00\x00\x00\x08\x02\x00\x00\x00\x01\x00\x00\x00\x02\x01\x00\x00\x00\x09\xff";
    from(to, b"8 mourns 9, from position 2", bytes, 2)?;
    from(to, b"8 mourns 9, past the end", bytes, 23)?;
    from(
        to,
        b"8 mourns 9, at the largest position",
        bytes,
        18446744073709551615,
    )?;
    alone(
        to,
        b"8 mourns 9, its last byte cut",
        b"\x02\x00\x00\x00\x08\x02\x00\x00\x00\x01\x00\x00\x00\x02\x01\x00\x00\x00",
    )?;
    alone(
        to,
        b"8 mourns 9, lone",
        b"\x02\x00\x00\x00\x08\x02\x00\x00\x00\x01\x00\x00\x00\x02\x01\x00\x00\x00\x09",
    )?;
    alone(
        to,
        b"8 mourns 9, lone, and one byte",
        b"\x02\x00\x00\x00\x08\x02\x00\x00\x00\x01\x00\x00\x00\x02\x01\x00\x00\x00\x09\x00",
    )
}

// The same where the order of the group's roster is known.
pub fn ordered(to: Stdout) -> io::Result<()> {
    by_order(
        to,
        b"by the order, 8 mourns 9",
        b"\x02\x00\x00\x00\x08\x02\x00\x00\x00\x01\x00\x00\x00\x02\x01\x00\x00\x00\x09",
    )?;
    by_order(
        to,
        b"by the order, 3 mourns 9",
        b"\x02\x00\x00\x00\x03\x02\x00\x00\x00\x01\x00\x00\x00\x02\x01\x00\x00\x00\x09",
    )?;
    by_order(
        to,
        b"by the order, 9 mourns 1 8",
        b"\x02\x00\x00\x00\x09\x02\x00\x00\x00\x01\x00\x00\x00\x02\x02\x00\x00\x00\x01\x00\x00\x00\x08",
    )?;
    by_order(
        to,
        b"by the order, 1 mourns 1 8 of the roster 1 8",
        b"\x02\x00\x00\x00\x01\x02\x00\x00\x00\x01\x00\x00\x00\x08\x02\x00\x00\x00\x01\x00\x00\x00\x08",
    )
}

// The longest record with its roster's section of first serials, all else of second ones.
fn mix(out: &mut [u8; 1031], second: &[u8; 1031]) {
    out[..5].copy_from_slice(&second[..5]);
    out[519..].copy_from_slice(&second[519..]);
}

fn read_longest(
    to: Stdout,
    name: &[u8],
    bytes: &[u8; 1031],
    firsts: &[u32; 128],
    seconds: &[u32; 128],
) -> io::Result<()> {
    say::reading(to, name, records::read_lone(bytes, firsts, seconds))
}

// The longest record with all of its own and mourned serials second ones; first and second ones share their low 16 bits.
pub fn longest(to: Stdout) -> io::Result<()> {
    let mut firsts = [0u32; 128];
    let mut seconds = [0u32; 128];
    let none = [0u32; 128];
    lists::fill(&mut firsts, 65536);
    lists::fill(&mut seconds, 16711680);
    let all = places::below(128);
    let mut out = [0u8; 1031];
    let mut other = [0u8; 1031];
    let _ = writes::write(Kind::Full, Place(127), &firsts, all, &mut out, 0);
    let _ = writes::write(Kind::Full, Place(127), &seconds, all, &mut other, 0);
    mix(&mut out, &other);
    read_longest(
        to,
        b"the longest record in second serials",
        &out,
        &firsts,
        &seconds,
    )?;
    read_longest(to, b"and where none was given", &out, &firsts, &none)
}

// Looks a serial up on a roster, for the group of 7, 9 and 12 whose second serials are 70, none and 120.
fn sought(to: Stdout, name: &[u8], roster: &[u32], from: usize, x: u32) -> io::Result<()> {
    let firsts = [7u32, 9, 12];
    let seconds = [70u32, 0, 120];
    say::found(
        to,
        name,
        lookups::look_up(roster, from, &firsts, &seconds, Serial(x)),
    )
}

// On the group's own roster.
pub fn on_its_roster(to: Stdout) -> io::Result<()> {
    let roster = [7u32, 9, 12];
    sought(to, b"12 in 7 9 12", &roster, 0, 12)?;
    sought(to, b"120 in 7 9 12", &roster, 0, 120)?;
    sought(to, b"70 in 7 9 12", &roster, 0, 70)?;
    sought(to, b"90 in 7 9 12", &roster, 0, 90)?;
    sought(to, b"0 in 7 9 12", &roster, 0, 0)?;
    sought(to, b"120 from 1 on", &roster, 1, 120)?;
    sought(to, b"70 from 1 on", &roster, 1, 70)?;
    sought(
        to,
        b"70 from the largest place on",
        &roster,
        18446744073709551615,
        70,
    )
}

// On other rosters: a serial that stands there is itself, and one whose first does not stand there is not found.
pub fn on_other_rosters(to: Stdout) -> io::Result<()> {
    let turned = [12u32, 7, 12];
    let with_second = [7u32, 70, 12];
    sought(to, b"120 in 12 7 12", &turned, 0, 120)?;
    sought(to, b"120 in 12 7 12 from 1 on", &turned, 1, 120)?;
    sought(to, b"70 in 12 7 12", &turned, 0, 70)?;
    sought(to, b"120 in 12 7", &turned[..2], 0, 120)?;
    sought(to, b"120 in 7", &turned[1..2], 0, 120)?;
    sought(to, b"70 in nothing", &turned[..0], 0, 70)?;
    sought(to, b"70 in 7 70 12", &with_second, 0, 70)?;
    sought(to, b"70 in 7 70 12 from 2 on", &with_second, 2, 70)?;
    sought(to, b"120 in 7 70 12", &with_second, 0, 120)
}
