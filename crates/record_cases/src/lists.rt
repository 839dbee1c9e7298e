// Lists of serials: what an opening meets, where a serial stands, and a roster in bytes beside a list.
use crate::stage::Stage;
use crate::{say as told, stage};
use serials::Serial;
use std::io::{self, Stdout};
use trials::{outcomes, parts, say};

// What an opening with them meets, and the first fault along them.
pub fn numbers(to: Stdout, s: Stage, words: &[u8]) -> io::Result<()> {
    let list = stage::listed(s, words, 0);
    let of = list.of;
    say::text(to, b" -> ")?;
    match rosters::check(parts::of_script(&of, list.count)) {
        Err(fault) => told::refused(to, fault)?,
        Ok(()) => say::text(to, b"sound")?,
    }
    say::text(to, b", first fault ")?;
    let fault = rosters::first_fault(parts::of_script(&of, list.count));
    say::number(to, outcomes::happening(fault))
}

// Where a serial stands on a roster, looked for from a place on first.
pub fn query(to: Stdout, s: Stage, words: &[u8]) -> io::Result<()> {
    let said = scripts::numbers(scripts::section(words, 0));
    let roster = stage::listed(s, words, 1);
    let of = roster.of;
    let firsts = s.firsts;
    let one = firsts.of;
    let seconds = s.seconds;
    let two = seconds.of;
    let got = lookups::look_up(
        parts::of_script(&of, roster.count),
        scripts::number(said, 1) as usize,
        parts::of_script(&one, firsts.count),
        parts::of_script(&two, seconds.count),
        Serial(scripts::serial(scripts::number(said, 0), s.wide)),
    );
    say::text(to, b" -> ")?;
    outcomes::write(to, outcomes::found(got))
}

// Whether a roster in the bytes is a list.
pub fn is(to: Stdout, s: Stage, words: &[u8]) -> io::Result<()> {
    let said = scripts::numbers(scripts::section(words, 0));
    let list = stage::listed(s, words, 1);
    let of = list.of;
    let all = s.bytes;
    let got = records::roster_is(
        parts::of_record(&all, s.length),
        scripts::number(said, 0) as usize,
        scripts::number(said, 1) as usize,
        parts::of_script(&of, list.count),
    );
    say::text(to, b" -> ")?;
    told::truth(to, got)
}

// How many of a list are not 5.
fn changed(list: &[u32; 128]) -> u64 {
    list.iter().filter(|x| **x != 5).count() as u64
}

fn serial(to: Stdout, x: u32) -> io::Result<()> {
    print!(to; " {x}")
}

// A roster in the bytes copied into a list of fives: its first four serials, and how many changed.
pub fn keep(to: Stdout, s: Stage, words: &[u8]) -> io::Result<()> {
    let said = scripts::numbers(scripts::section(words, 0));
    let all = s.bytes;
    let mut list = [5u32; 128];
    let got = records::copy_roster(
        parts::of_record(&all, s.length),
        scripts::number(said, 0) as usize,
        scripts::number(said, 1) as usize,
        &mut list,
    );
    say::text(to, b" -> ")?;
    told::truth(to, got)?;
    say::text(to, b",")?;
    serial(to, list[0])?;
    serial(to, list[1])?;
    serial(to, list[2])?;
    serial(to, list[3])?;
    say::text(to, b", changed ")?;
    say::number(to, changed(&list))
}
