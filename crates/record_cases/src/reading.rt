// Readers: from a stream, alone, for the ticket desk, by the order of the group.
use crate::say as told;
use crate::stage::{Serials, Stage};
use layouts::Record;
use refusals::Refusal;
use std::io::{self, Stdout};
use trials::{parts, say};

// The record from a position on.
fn stream(bytes: &[u8], at: usize, firsts: Serials, seconds: Serials) -> Result<Record, Refusal> {
    let one = firsts.of;
    let two = seconds.of;
    records::read(
        bytes,
        at,
        parts::of_script(&one, firsts.count),
        parts::of_script(&two, seconds.count),
    )
}

fn alone(bytes: &[u8], firsts: Serials, seconds: Serials) -> Result<Record, Refusal> {
    let one = firsts.of;
    let two = seconds.of;
    records::read_lone(
        bytes,
        parts::of_script(&one, firsts.count),
        parts::of_script(&two, seconds.count),
    )
}

fn ordered(bytes: &[u8], firsts: Serials, seconds: Serials) -> Result<Record, Refusal> {
    let one = firsts.of;
    let two = seconds.of;
    let order = orders::order(parts::of_script(&one, firsts.count));
    records::read_like(
        bytes,
        0,
        parts::of_script(&one, firsts.count),
        parts::of_script(&two, seconds.count),
        parts::of_order(&order, firsts.count),
    )
}

// What the desk sees, over a slice of so many bytes that is there before; its refusal, 0 for none.
fn desk(
    to: Stdout,
    bytes: &[u8],
    before: usize,
    firsts: Serials,
    seconds: Serials,
    aloud: bool,
) -> io::Result<u8> {
    let one = firsts.of;
    let two = seconds.of;
    let mut roster = scripts::part(bytes, 0, before);
    let got = records::read_desk(
        bytes,
        parts::of_script(&one, firsts.count),
        parts::of_script(&two, seconds.count),
        &mut roster,
    );
    if aloud {
        told::sight(to, got, roster)?;
    }
    match got {
        Err(fault) => Ok(fault as u8),
        Ok(_) => Ok(0),
    }
}

// A reading's refusal, 0 for none.
fn fault(got: Result<Record, Refusal>) -> u8 {
    match got {
        Err(refusal) => refusal as u8,
        Ok(_) => 0,
    }
}

// What each reader meets.
fn faults(to: Stdout, bytes: &[u8], firsts: Serials, seconds: Serials) -> io::Result<()> {
    say::text(to, b" ")?;
    say::number(to, fault(stream(bytes, 0, firsts, seconds)) as u64)?;
    say::text(to, b":")?;
    say::number(to, fault(alone(bytes, firsts, seconds)) as u64)?;
    say::text(to, b":")?;
    let seen = desk(to, bytes, 0, firsts, seconds, false)?;
    say::number(to, seen as u64)
}

// Every cut of the bytes, from none of them on.
fn cuts(to: Stdout, bytes: &[u8], firsts: Serials, seconds: Serials) -> io::Result<()> {
    for k in 0..bytes.len() {
        faults(to, &bytes[..k], firsts, seconds)?;
    }
    Ok(())
}

// The bytes by each reader.
fn each(to: Stdout, bytes: &[u8], firsts: Serials, seconds: Serials) -> io::Result<()> {
    told::reading(to, stream(bytes, 0, firsts, seconds))?;
    say::text(to, b"; lone: ")?;
    told::reading(to, alone(bytes, firsts, seconds))?;
    say::text(to, b"; desk: ")?;
    desk(to, bytes, 0, firsts, seconds, true)?;
    Ok(())
}

// A line that reads the bytes of a stage, by its first letter.
pub fn call(to: Stdout, s: Stage, words: &[u8]) -> io::Result<()> {
    let all = s.bytes;
    let bytes = parts::of_record(&all, s.length);
    let said = scripts::numbers(scripts::section(words, 0));
    let at = scripts::number(said, 0) as usize;
    let firsts = s.firsts;
    let seconds = s.seconds;
    say::text(to, b" -> ")?;
    match scripts::byte(words, 0) {
        b'r' => told::reading(to, stream(bytes, 0, firsts, seconds)),
        b'l' => told::reading(to, alone(bytes, firsts, seconds)),
        b'd' => {
            desk(to, bytes, 0, firsts, seconds, true)?;
            Ok(())
        }
        b'o' => told::reading(to, ordered(bytes, firsts, seconds)),
        b'a' => told::reading(to, stream(bytes, at, firsts, seconds)),
        b's' => {
            desk(to, bytes, at, firsts, seconds, true)?;
            Ok(())
        }
        b'c' => cuts(to, bytes, firsts, seconds),
        _ => each(to, bytes, firsts, seconds),
    }
}
