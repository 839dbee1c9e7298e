// A roster in bytes beside a list: compared, and copied.
use crate::say;
use std::io::{self, Stdout};

// Whether all serials from a place on are x.
fn all_from(list: &[u32; 128], from: usize, x: u32) -> bool {
    list.iter().skip(from).all(|y| *y == x)
}

// Compares the roster 7 9 12, in bytes from position 1 on, with a list.
fn is(to: Stdout, name: &[u8], at: usize, count: usize, list: &[u32]) -> io::Result<()> {
    let bytes = b"\xff\x00\x00\x00\x07\x00\x00\x00\x09\x00\x00\x00\x0c";
    say::truth(to, name, records::roster_is(bytes, at, count, list))
}

// Copies from the same bytes.
fn copy(to: Stdout, name: &[u8], at: usize, count: usize, list: &mut [u32; 128]) -> io::Result<()> {
    let bytes = b"\xff\x00\x00\x00\x07\x00\x00\x00\x09\x00\x00\x00\x0c";
    say::truth(to, name, records::copy_roster(bytes, at, count, list))
}

pub fn compared(to: Stdout) -> io::Result<()> {
    let list = [7u32, 9, 12, 9, 7];
    is(to, b"7 9 12 is 7 9 12", 1, 3, &list[..3])?;
    is(to, b"7 9 is 7 9 12", 1, 2, &list[..3])?;
    is(to, b"7 9 12 is 7 9", 1, 3, &list[..2])?;
    is(to, b"7 9 12 is 12 9 7", 1, 3, &list[2..])?;
    is(to, b"none at the end is none", 13, 0, &list[..0])?;
    let high = [7u32, 9, 0x8000000c];
    is(to, b"7 9 12 is 7 9 and 12 with a higher bit", 1, 3, &high)
}

// Counts of 1, 128 and 129.
pub fn counted(to: Stdout) -> io::Result<()> {
    let many = [0u8; 516];
    let zeros = [0u32; 129];
    is(to, b"9 is 0", 5, 1, &zeros[..1])?;
    say::truth(
        to,
        b"128 zeros is 128 zeros",
        records::roster_is(&many, 0, 128, &zeros[..128]),
    )?;
    say::truth(
        to,
        b"128 zeros is 129 zeros",
        records::roster_is(&many, 0, 128, &zeros),
    )?;
    say::truth(
        to,
        b"129 zeros is 129 zeros",
        records::roster_is(&many, 0, 129, &zeros),
    )
}

// More than is there.
pub fn not_there(to: Stdout) -> io::Result<()> {
    let list = [7u32, 9, 12, 0];
    is(to, b"one more than is there", 1, 4, &list)?;
    is(to, b"none past the end is none", 14, 0, &list[..0])?;
    is(
        to,
        b"from the largest position on",
        18446744073709551615,
        1,
        &list[..1],
    )?;
    is(
        to,
        b"the largest count",
        1,
        18446744073709551615,
        &list[..3],
    )
}

// Copied into a list of 128 fives.
pub fn copied(to: Stdout) -> io::Result<()> {
    let many = [0u8; 512];
    let mut list = [5u32; 128];
    copy(to, b"none at the end, copied", 13, 0, &mut list)?;
    say::truth(to, b"nothing changed", all_from(&list, 0, 5))?;
    copy(to, b"7 9 12, copied", 1, 3, &mut list)?;
    say::truth(to, b"its first is 7", list[0] == 7)?;
    say::truth(to, b"its second is 9", list[1] == 9)?;
    say::truth(to, b"its third is 12", list[2] == 12)?;
    say::truth(to, b"nothing after it", all_from(&list, 3, 5))?;
    say::truth(
        to,
        b"128, copied",
        records::copy_roster(&many, 0, 128, &mut list),
    )?;
    say::truth(to, b"all of it", all_from(&list, 0, 0))
}

// More than is there, or than fits: nothing is copied.
pub fn not_copied(to: Stdout) -> io::Result<()> {
    let many = [0u8; 520];
    let mut list = [5u32; 128];
    copy(to, b"one more than is there, copied", 1, 4, &mut list)?;
    copy(to, b"none past the end, copied", 14, 0, &mut list)?;
    copy(
        to,
        b"from the largest position on, copied",
        18446744073709551615,
        1,
        &mut list,
    )?;
    say::truth(
        to,
        b"129, copied",
        records::copy_roster(&many, 0, 129, &mut list),
    )?;
    say::truth(to, b"nothing changed", all_from(&list, 0, 5))
}
