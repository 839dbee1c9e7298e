// Writing a record into a lent buffer: document 01's listing, second record, of 31 bytes.
use crate::{reading, say};
use histories::Kind;
use sets::Place;
use std::io::{self, Stdout};

// Whether every byte is 0xaa.
fn untouched(bytes: &[u8]) -> bool {
    bytes.iter().all(|x| *x == 0xaa)
}

// Writes the record of a place of 0x65 0x66 0x67 0x68 that heard of the second and the third, 31 bytes.
fn write(to: Stdout, name: &[u8], own: usize, out: &mut [u8; 40], at: usize) -> io::Result<()> {
    let roster = [0x65u32, 0x66, 0x67, 0x68];
    let heard = places::with(places::only(Place(1)), Place(2));
    say::writing(
        to,
        name,
        writes::write(Kind::Short, Place(own), &roster, heard, out, at),
    )
}

// The same for a roster of other serials.
fn write_for(
    to: Stdout,
    name: &[u8],
    own: usize,
    roster: &[u32],
    out: &mut [u8; 40],
    at: usize,
) -> io::Result<()> {
    let heard = places::only(Place(1));
    say::writing(
        to,
        name,
        writes::write(Kind::Short, Place(own), roster, heard, out, at),
    )
}

fn read_at(to: Stdout, name: &[u8], bytes: &[u8], at: usize) -> io::Result<()> {
    say::reading(to, name, reading::read(bytes, at))
}

// Laid from position 3 on, it is those bytes, and no other byte is touched.
pub fn back(to: Stdout) -> io::Result<()> {
    let bytes =
        b"\x02\x00\x00\x00\x68\x04\x00\x00\x00\x65\x00\x00\x00\x66\x00\x00\x00\x67\x00\x00\x00\x68\x02\x00\x00\x00\x66\x00\x00\x00\x67";
    let roster = [0x65u32, 0x66, 0x67, 0x68];
    let heard = places::with(places::only(Place(1)), Place(2));
    let mut out = [0xaau8; 40];
    say::writing(
        to,
        b"the listing's second, written",
        writes::write(Kind::Short, Place(3), &roster, heard, &mut out, 3),
    )?;
    say::truth(to, b"the same bytes", &out[3..34] == bytes.as_slice())?;
    say::truth(to, b"nothing before it", untouched(&out[..3]))?;
    say::truth(to, b"nothing after it", untouched(&out[34..]))?;
    read_at(to, b"and read again", &out, 3)
}

// A set with places off the roster: they are not written.
pub fn off_the_roster(to: Stdout) -> io::Result<()> {
    let roster = [0x65u32, 0x66, 0x67, 0x68];
    let all = places::below(128);
    let mut out = [0xaau8; 40];
    say::writing(
        to,
        b"all places mourned, of four",
        writes::write(Kind::Full, Place(0), &roster, all, &mut out, 0),
    )?;
    read_at(to, b"and read again", &out, 0)
}

// A roster of one, with a place off it mourned.
pub fn of_one(to: Stdout) -> io::Result<()> {
    let one = [0xfffffffeu32];
    let mut out = [0xaau8; 40];
    let off = places::only(Place(1));
    say::writing(
        to,
        b"place 0 of 1",
        writes::write(Kind::Short, Place(0), &one, off, &mut out, 29),
    )?;
    say::truth(to, b"nothing before it", untouched(&out[..29]))?;
    read_at(to, b"and read again", &out, 29)
}

// The refusals 12 and 3, in this order, and before 13; the buffer stays as it is.
pub fn refused(to: Stdout) -> io::Result<()> {
    let long = [1u32; 129];
    let mut out = [0xaau8; 40];
    write(to, b"place 4 of 4", 4, &mut out, 0)?;
    write(to, b"the largest place", 18446744073709551615, &mut out, 0)?;
    write_for(to, b"place 0 of none", 0, &long[..0], &mut out, 0)?;
    write_for(
        to,
        b"place 129 of 129, past the end",
        129,
        &long,
        &mut out,
        41,
    )?;
    write_for(to, b"place 0 of 129, past the end", 0, &long, &mut out, 41)?;
    say::truth(to, b"nothing changed", untouched(&out))
}

// The refusal 13, and the last position where the record fits.
pub fn too_short(to: Stdout) -> io::Result<()> {
    let mut out = [0xaau8; 40];
    write(to, b"one byte short", 3, &mut out, 10)?;
    write(to, b"at the end", 3, &mut out, 40)?;
    write(to, b"past the end", 3, &mut out, 41)?;
    write(
        to,
        b"at the largest position",
        3,
        &mut out,
        18446744073709551615,
    )?;
    say::truth(to, b"nothing changed", untouched(&out))?;
    write(to, b"just long enough", 3, &mut out, 9)
}
