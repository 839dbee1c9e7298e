// Reading records: the cases stand in the file stdin, one to a line, a name and the record's bytes in hexadecimal. Behind a
// colon they are read as a stream's, behind a semicolon as a lone record's, behind an equals sign as a stream's for a group
// with second serials, and behind an at sign for the ticket desk of that group; a line with none of these is a heading.
ghost use Rattle.std.specs.Prelude.{◌≤◌, length, IfOk};

use crate::{desk, say};
use records::Record;
use refusals::Refusal;
use std::io::{self, Read, Stdin, Stdout};

// Reads until the buffer is full or the input has ended, and says how many bytes came.
pub fn read_full(from: Stdin, buf: &mut [u8]) -> io::Result<usize>
    ensures { IfOk result (λ n. n ≤ length buf.new) }
{
    let mut input = from;
    let mut done = 0;
    while done < buf.len() {
        let n = input.read(&mut buf[done..])?;
        if n == 0 {
            break;
        }
        done += n;
    }
    Ok(done)
}

// The value of a hexadecimal digit, or 16.
fn digit(c: u8) -> u8
    ensures { result ≤ 16 }
{
    match c {
        48..=57 => c - 48,
        97..=102 => c - 87,
        0..=47 | 58..=96 | 103..=255 => 16,
    }
}

// Of a first digit, 16 where there is none yet, and what follows it: 1 where they make a byte, and that byte, and the first
// digit after them.
fn made(high: u8, v: u8) -> usize
    ensures { result ≤ 1 }
{
    if 15 < v {
        return 0;
    }
    if 15 < high {
        return 0;
    }
    1
}

fn byte(high: u8, v: u8) -> u8 {
    if 15 < v {
        return 0;
    }
    if 15 < high {
        return 0;
    }
    high * 16 + v
}

fn after(high: u8, v: u8) -> u8 {
    if 15 < v {
        return high;
    }
    if 15 < high {
        return v;
    }
    16
}

fn store(out: &mut [u8], at: usize, x: u8) {
    if at < out.len() {
        out[at] = x;
    }
}

// The bytes that a text spells, two digits each, and how many they are.
fn decode(text: &[u8], out: &mut [u8]) -> usize
    ensures { result ≤ length out.new }
{
    let mut n = 0;
    let mut high = 16;
    for c in text {
        let v = digit(*c);
        store(out, n, byte(high, v));
        n += made(high, v);
        high = after(high, v);
    }
    n.min(out.len())
}

// The first position of a byte from a position on, or the end.
fn find(bytes: &[u8], from: usize, x: u8) -> usize
    requires { from ≤ length bytes.now }
    ensures { (from ≤ result) × (result ≤ length bytes.now) }
{
    let rest = &bytes[from..];
    from + rest.iter().position(|y| *y == x).unwrap_or(rest.len())
}

// Reads one of a stream for a group that has no second serials.
pub fn read(bytes: &[u8], at: usize) -> Result<Record, Refusal> {
    let list = [0u32; 1];
    let none = &list[..0];
    records::read(bytes, at, none, none)
}

// Reads a lone record for such a group.
pub fn read_lone(bytes: &[u8]) -> Result<Record, Refusal> {
    let list = [0u32; 1];
    let none = &list[..0];
    records::read_lone(bytes, none, none)
}

// The record that a text spells, read as one of a stream.
fn stream(to: Stdout, name: &[u8], text: &[u8]) -> io::Result<()> {
    let mut bytes = [0u8; 64];
    let n = decode(text, &mut bytes);
    say::reading(to, name, read(&bytes[..n], 0))
}

// The same, read as a lone record.
fn lone(to: Stdout, name: &[u8], text: &[u8]) -> io::Result<()> {
    let mut bytes = [0u8; 64];
    let n = decode(text, &mut bytes);
    say::reading(to, name, read_lone(&bytes[..n]))
}

// The same, read as one of a stream for a group of 1 and 2 whose second serials are 8 and 9.
fn swapped(to: Stdout, name: &[u8], text: &[u8]) -> io::Result<()> {
    let firsts = [1u32, 2];
    let seconds = [8u32, 9];
    let mut bytes = [0u8; 64];
    let n = decode(text, &mut bytes);
    say::reading(to, name, records::read(&bytes[..n], 0, &firsts, &seconds))
}

// The same, as the ticket desk of that group sees it.
fn shown(to: Stdout, name: &[u8], text: &[u8]) -> io::Result<()> {
    let mut bytes = [0u8; 64];
    let n = decode(text, &mut bytes);
    desk::seen(to, name, &bytes[..n])
}

// One line: a case or a heading.
fn line(to: Stdout, words: &[u8]) -> io::Result<()> {
    let colon = find(words, 0, b':');
    let semicolon = find(words, 0, b';');
    let equals = find(words, 0, b'=');
    let at = find(words, 0, b'@');
    if colon < words.len() {
        stream(to, &words[..colon], &words[colon..])?;
    } else if semicolon < words.len() {
        lone(to, &words[..semicolon], &words[semicolon..])?;
    } else if equals < words.len() {
        swapped(to, &words[..equals], &words[equals..])?;
    } else if at < words.len() {
        shown(to, &words[..at], &words[at..])?;
    } else {
        say::text(to, words)?;
        say::text(to, b"\n")?;
    }
    Ok(())
}

// All lines.
pub fn table(to: Stdout, input: &[u8]) -> io::Result<()> {
    let mut from = 0;
    while from < input.len() {
        let end = find(input, from, b'\n');
        line(to, &input[from..end])?;
        if end == input.len() {
            return Ok(());
        }
        from = end + 1;
    }
    Ok(())
}

// A position at the end, past it, and the largest there is.
pub fn positions(to: Stdout) -> io::Result<()> {
    let bytes = b"\x01\x00\x00\x00\x07\x01\x00\x00\x00\x07\x00";
    say::reading(to, b"at position 0", read(bytes, 0))?;
    say::reading(to, b"at the end", read(bytes, 11))?;
    say::reading(to, b"past the end", read(bytes, 12))?;
    say::reading(
        to,
        b"at the largest position",
        read(bytes, 18446744073709551615),
    )?;
    say::reading(
        to,
        b"from position 2",
        read(b"\xff\xff\x01\x00\x00\x00\x07\x01\x00\x00\x00\x07\x00", 2),
    )
}
