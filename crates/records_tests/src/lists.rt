// Lists of serials: what a recovery or a day opened with one meets, and where a serial stands.
ghost use Rattle.std.specs.Prelude.{◌≤◌};

use crate::say;
use serials::{Finding, Serial};
use std::io::{self, Stdout};

// The list x, 2x, 3x and so on.
pub fn fill(list: &mut [u32], x: u32) {
    let mut y = 0u32;
    for serial in list.iter_mut() {
        y = y.wrapping_add(x);
        *serial = y;
    }
}

// Where a serial stands in a list, looked for from a place on first, in a group that has no second serials.
fn look_up(list: &[u32], from: usize, x: u32) -> Option<Finding> {
    let zero = [0u32; 1];
    let none = &zero[..0];
    lookups::look_up(list, from, none, none, Serial(x))
}

// 1 where the place was found by its first serial, 0 elsewhere.
fn one_if(found: Option<Finding>, place: usize) -> usize
    ensures { result ≤ 1 }
{
    match found {
        Some(Finding::First(at)) if at.0 == place => 1,
        _ => 0,
    }
}

// How many serials of a list are found at their own places.
pub fn at_home(list: &[u32]) -> usize {
    let mut n = 0;
    for (i, x) in list.iter().enumerate() {
        n += one_if(look_up(list, 0, *x), i);
    }
    n
}

fn opened(to: Stdout, name: &[u8], list: &[u32]) -> io::Result<()> {
    say::listed(to, name, rosters::check(list))
}

fn faulty(to: Stdout, name: &[u8], list: &[u32]) -> io::Result<()> {
    let fault = match rosters::first_fault(list) {
        Ok(()) => 0,
        Err(refusal) => refusal as usize,
    };
    say::count(to, name, fault)
}

fn sought(to: Stdout, name: &[u8], list: &[u32], x: u32) -> io::Result<()> {
    say::found(to, name, look_up(list, 0, x))
}

fn ahead(to: Stdout, name: &[u8], list: &[u32], from: usize, x: u32) -> io::Result<()> {
    say::found(to, name, look_up(list, from, x))
}

// The faults 3, 4, 5, each over the whole list.
pub fn opening(to: Stdout) -> io::Result<()> {
    let list = [7u32, 7, 0, 9, 7];
    opened(to, b"no serial", &list[..0])?;
    opened(to, b"7", &list[..1])?;
    opened(to, b"7 7", &list[..2])?;
    opened(to, b"7 7 0", &list[..3])?;
    opened(to, b"0", &list[2..3])?;
    opened(to, b"0 9 7", &list[2..])?;
    opened(to, b"9 7", &list[3..])
}

// The same over 128 serials and 129.
pub fn longer(to: Stdout) -> io::Result<()> {
    let mut full = [0u32; 128];
    let mut over = [0u32; 129];
    opened(to, b"128 zeros", &full)?;
    opened(to, b"129 zeros", &over)?;
    fill(&mut full, 1);
    fill(&mut over, 1);
    opened(to, b"1 to 128", &full)?;
    opened(to, b"1 to 129", &over)?;
    full[127] = 1;
    opened(to, b"1 to 127, and 1 again", &full)?;
    full[127] = 0;
    opened(to, b"1 to 127, and 0", &full)
}

// The first fault along a list.
pub fn faults(to: Stdout) -> io::Result<()> {
    let list = [7u32, 9, 12, 9, 7];
    faulty(to, b"first fault of 7 9 12 9 7", &list)?;
    faulty(to, b"first fault of 7 9 12", &list[..3])?;
    faulty(to, b"first fault of nothing", &list[..0])?;
    let mixed = [7u32, 7, 0, 0];
    faulty(to, b"first fault of 7 7 0", &mixed[..3])?;
    faulty(to, b"first fault of 7 0 0", &mixed[1..])?;
    faulty(to, b"first fault of 0 0", &mixed[2..])
}

// The same where every serial has the mark of the first.
pub fn faults_marked(to: Stdout) -> io::Result<()> {
    let alike = [
        7u32, 1604, 4188, 5785, 8369, 10953, 12550, 15134, 16731, 4188,
    ];
    faulty(to, b"first fault of nine with one mark", &alike[..9])?;
    faulty(to, b"first fault of ten with one mark", &alike)
}

// The same where a serial is compared with 16 at a time: it is the first of them, the last, or behind them.
pub fn faults_of_twenty(to: Stdout) -> io::Result<()> {
    let mut list = [0u32; 20];
    fill(&mut list, 1);
    faulty(to, b"first fault of 1 to 20", &list)?;
    list[19] = 1;
    faulty(to, b"first fault of 1 to 19, and 1", &list)?;
    list[19] = 16;
    faulty(to, b"first fault of 1 to 19, and 16", &list)?;
    list[19] = 17;
    faulty(to, b"first fault of 1 to 19, and 17", &list)?;
    list[18] = 0;
    faulty(to, b"first fault of 1 to 18, 0, and 17", &list)
}

// The same for more serials than a roster has.
pub fn faults_of_many(to: Stdout) -> io::Result<()> {
    let mut list = [0u32; 300];
    fill(&mut list, 1);
    faulty(to, b"first fault of 1 to 300", &list)?;
    list[299] = 17;
    faulty(to, b"first fault of 1 to 299, and 17", &list)
}

// Finding a serial from the front, and from a place on first.
pub fn finding(to: Stdout) -> io::Result<()> {
    let list = [7u32, 9, 7];
    sought(to, b"7 in 7 9 7", &list, 7)?;
    sought(to, b"8 in 7 9 7", &list, 8)?;
    sought(to, b"0 in 7 9 7", &list, 0)?;
    ahead(to, b"7 from 1 on", &list, 1, 7)?;
    ahead(to, b"9 from 1 on", &list, 1, 9)?;
    ahead(to, b"9 from 2 on", &list, 2, 9)?;
    ahead(to, b"8 from 1 on", &list, 1, 8)?;
    ahead(to, b"7 from 3 on", &list, 3, 7)?;
    ahead(
        to,
        b"9 from the largest place on",
        &list,
        18446744073709551615,
        9,
    )
}

// The serials that differ from x in one bit, the lowest first, and after 32 of them x itself.
pub fn one_bit(list: &mut [u32], x: u32) {
    let mut bit = 1u32;
    for serial in list.iter_mut() {
        *serial = x ^ bit;
        bit = bit.wrapping_add(bit);
    }
}

// Serials alike in all bits but a few.
pub fn alike(to: Stdout) -> io::Result<()> {
    let mut list = [0u32; 33];
    one_bit(&mut list, 0x01020304);
    opened(to, b"33 serials that differ in one bit", &list)?;
    say::count(to, b"of them at their places", at_home(&list))?;
    let low = [0x01020304u32, 0x91020304, 0x01920304, 0x01029304];
    opened(to, b"serials that share low bits", &low)?;
    say::count(to, b"of them at their places", at_home(&low))?;
    sought(to, b"the low 24 bits of a member", &low, 0x81020304)?;
    sought(to, b"the low 16 bits of a member", &low, 0x01820304)?;
    sought(to, b"the low 8 bits of a member", &low, 0x01028304)?;
    sought(to, b"the low 16 bits alone", &low, 0x00000304)
}
