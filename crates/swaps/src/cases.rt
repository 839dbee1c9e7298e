// Lists of givings as numbers, and the records that are offered after each.
ghost use Rattle.std.specs.Prelude.{◌≤◌, ◌<◌};

use crate::Few;
use std::io::{self, Stdout};
use trials::tallies::Tally;
use trials::{parts, say, stored, tallies};

// A list of givings: a number in base 15, the first giving lowest; a digit is 5 times the place and one of the five serials.
#[derive(Clone, Copy)]
pub struct Case {
    pub n: usize,
    pub list: u32,
}

// How many lists of n givings there are.
pub fn lists(n: usize) -> u32
    ensures { result ≤ 3375 }
{
    match n {
        0 => 1,
        1 => 15,
        2 => 225,
        _ => 3375,
    }
}

fn digit(c: Case, i: usize) -> u32
    ensures { result < 15 }
{
    match i {
        0 => c.list % 15,
        1 => c.list / 15 % 15,
        _ => c.list / 225 % 15,
    }
}

pub fn place(c: Case, i: usize) -> usize {
    (digit(c, i) / 5) as usize
}

pub fn serial(c: Case, i: usize) -> u32 {
    match digit(c, i) % 5 {
        0 => 0,
        1 => 1,
        2 => 2,
        3 => 8,
        _ => 9,
    }
}

fn few(n: usize, a: u32, b: u32) -> Few {
    Few { n, a, b, c: 0 }
}

// Six rosters: the group's, the same turned, a shorter one, two with a serial that may be a second one, and a longer one.
pub fn roster(k: u32) -> Few {
    match k % 6 {
        0 => few(2, 1, 2),
        1 => few(2, 2, 1),
        2 => few(1, 1, 0),
        3 => few(2, 1, 8),
        4 => few(2, 8, 2),
        _ => Few {
            n: 3,
            a: 1,
            b: 2,
            c: 8,
        },
    }
}

// Six serials of records.
fn named(k: u32) -> u32 {
    match k % 6 {
        4 => 8,
        5 => 9,
        _ => k % 6,
    }
}

// The parts of record number k: one of 6 rosters, 6 own serials, 43 lists of up to two mourned serials, and a kind.
pub fn own(k: u32) -> u32 {
    named(k / 6)
}

pub fn mourned(k: u32) -> Few {
    let m = k / 36 % 43;
    if m == 0 {
        return few(0, 0, 0);
    }
    if m < 7 {
        return few(1, named(m - 1), 0);
    }
    few(2, named((m - 7) / 6), named(m - 7))
}

fn kind(k: u32) -> u8 {
    if k < 1548 {
        return 1;
    }
    2
}

fn say_few(to: Stdout, list: Few) -> io::Result<()> {
    if 0 < list.n {
        print!(to; " {}", list.a)?;
    }
    if 1 < list.n {
        print!(to; " {}", list.b)?;
    }
    if 2 < list.n {
        print!(to; " {}", list.c)?;
    }
    Ok(())
}

fn say_giving(to: Stdout, c: Case, i: usize) -> io::Result<()> {
    if c.n <= i {
        return Ok(());
    }
    print!(to; " {}:{}", place(c, i), serial(c, i))
}

fn say_case(to: Stdout, c: Case) -> io::Result<()> {
    say::text(to, b"given PLACE:SERIAL")?;
    say_giving(to, c, 0)?;
    say_giving(to, c, 1)?;
    say_giving(to, c, 2)
}

fn say_held(
    to: Stdout,
    c: Case,
    call: &[u8],
    about: u64,
    expected: u64,
    came: u64,
) -> io::Result<()> {
    say_case(to, c)?;
    say::text(to, b", ")?;
    say::text(to, call)?;
    print!(to; " {about}")?;
    tallies::say_both(to, expected, came)
}

// One outcome of a call about something (a giving, a serial) after these givings.
pub fn held(t: Tally, c: Case, call: &[u8], about: u64, expected: u64, came: u64) -> Tally {
    if tallies::is_first(t, expected, came) {
        let _ = say_held(t.to, c, call, about, expected, came);
    }
    tallies::counted(t, expected, came)
}

fn say_record(to: Stdout, c: Case, k: u32, expected: u64, came: u64) -> io::Result<()> {
    say_case(to, c)?;
    print!(to; ", offer of kind {}, roster", kind(k))?;
    say_few(to, roster(k))?;
    print!(to; ", own {}, mourned", own(k))?;
    say_few(to, mourned(k))?;
    tallies::say_both(to, expected, came)
}

// The outcome of offering record number k.
pub fn held_record(t: Tally, c: Case, k: u32, expected: u64, came: u64) -> Tally {
    if tallies::is_first(t, expected, came) {
        let _ = say_record(t.to, c, k, expected, came);
    }
    tallies::counted(t, expected, came)
}

// Lays record number k, and says how long it is.
pub fn lay(k: u32, out: &mut [u8; 1100]) -> usize
    ensures { result ≤ 1100 }
{
    let of = roster(k);
    let heard = mourned(k);
    let serials = [of.a, of.b, of.c];
    let named = [heard.a, heard.b, heard.c];
    stored::lay(
        kind(k),
        own(k),
        stored::byte(of.n),
        parts::numbers(&serials, of.n),
        stored::byte(heard.n),
        parts::numbers(&named, heard.n),
        out,
    )
}
