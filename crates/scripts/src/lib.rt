// Scripts of test cases: lines of words, decimal numbers and hexadecimal bytes, taken apart; and bytes printed in runs.
#![tactic(auto)]

ghost use Rattle.std.specs.Prelude.{◌-◌, ◌<◌, ◌≤◌, length, IfOk};

use std::io::{self, Read, Stdin, Stdout};
use trials::{parts, stored};

// A list of numbers, at most 300 of them.
#[derive(Clone, Copy)]
pub struct List {
    pub count: usize,
    pub of: [u64; 300],
}

// A number that is being read: its value, whether a digit was met, and the number before two dots.
#[derive(Clone, Copy)]
struct Scan {
    value: u64,
    some: bool,
    first: u64,
    ranged: bool,
}

// The byte at a position, 0 where there is none.
pub fn byte(text: &[u8], at: usize) -> u8 {
    if at < text.len() {
        return text[at];
    }
    0
}

// The bytes from a position on.
fn behind(text: &[u8], from: usize) -> &[u8] {
    if from < text.len() {
        return &text[from..];
    }
    &text[..0]
}

// So many bytes from a position on, or as many as there are.
pub fn part(text: &[u8], from: usize, count: usize) -> &[u8] {
    parts::bytes(behind(text, from), count)
}

// How many bytes stand between a position and the next such byte, or the end.
pub fn up_to(text: &[u8], from: usize, x: u8) -> usize
    ensures { result ≤ length text.now - from }
{
    if text.len() < from {
        return 0;
    }
    let rest = &text[from..];
    rest.iter().position(|c| *c == x).unwrap_or(rest.len())
}

// Section k of a line, apart by colons; what follows a number sign is a remark.
pub fn section(line: &[u8], k: usize) -> &[u8] {
    let said = part(line, 0, up_to(line, 0, b'#'));
    let first = up_to(said, 0, b':');
    if k == 0 {
        return part(said, 0, first);
    }
    let rest = part(said, first.wrapping_add(1), said.len());
    let second = up_to(rest, 0, b':');
    if k == 1 {
        return part(rest, 0, second);
    }
    part(rest, second.wrapping_add(1), rest.len())
}

// The scan after one more byte.
fn scanned(s: Scan, c: u8) -> Scan {
    if c.is_ascii_digit() {
        let value = s.value.wrapping_mul(10).wrapping_add((c % 16) as u64);
        return Scan {
            value,
            some: true,
            first: s.first,
            ranged: s.ranged,
        };
    }
    if c != b'.' {
        return unread();
    }
    if s.some {
        return Scan {
            value: 0,
            some: false,
            first: s.value,
            ranged: true,
        };
    }
    s
}

// Nothing read yet.
fn unread() -> Scan {
    Scan {
        value: 0,
        some: false,
        first: 0,
        ranged: false,
    }
}

// The list with one number more, where there is room.
fn with(list: List, x: u64) -> List {
    let mut next = list;
    let at = list.count;
    if at < 300 {
        next.of[at] = x;
        next.count = at + 1;
    }
    next
}

// The list with all numbers from one to another, at most 300.
fn with_range(list: List, first: u64, last: u64) -> List {
    let mut next = list;
    for k in 0u64..300 {
        if last < first {
            return next;
        }
        let x = first.wrapping_add(k);
        if last < x {
            return next;
        }
        next = with(next, x);
    }
    next
}

// The list with the number that ends before this byte, if one does.
fn ended(list: List, s: Scan, c: u8) -> List {
    if c.is_ascii_digit() || c == b'.' || !s.some {
        return list;
    }
    if s.ranged {
        return with_range(list, s.first, s.value);
    }
    with(list, s.value)
}

// The decimal numbers of a text; two dots between two stand for all from one to the other.
pub fn numbers(text: &[u8]) -> List {
    let mut list = List {
        count: 0,
        of: [0; 300],
    };
    let mut s = unread();
    for c in text {
        list = ended(list, s, *c);
        s = scanned(s, *c);
    }
    ended(list, s, b' ')
}

// Number k of a list, 0 where there is none.
pub fn number(list: List, k: usize) -> u64 {
    if k < 300 {
        return list.of[k];
    }
    0
}

// Whether a line asks for serials that are multiples of 65536.
pub fn is_wide(line: &[u8]) -> bool {
    number(numbers(section(line, 0)), 0) == 65536
}

// A number as a serial, or where serials are wide that multiple of 65536.
pub fn serial(x: u64, wide: bool) -> u32 {
    if wide {
        return (x % 65536 * 65536) as u32;
    }
    (x % 4294967296) as u32
}

// The numbers of a text as serials, and how many they are.
pub fn serials(text: &[u8], wide: bool, out: &mut [u32; 300]) -> usize {
    let list = numbers(text);
    for (to, x) in out.iter_mut().zip(&list.of) {
        *to = serial(*x, wide);
    }
    list.count
}

// Lays the record that a line describes, KIND OWN: ROSTER: MOURNED, and says how long it is; 0 for more than 129 serials in a list.
pub fn lay(line: &[u8], wide: bool, out: &mut [u8; 1100]) -> usize
    ensures { result ≤ 1100 }
{
    let mut roster = [0u32; 300];
    let mut mourned = [0u32; 300];
    let head = numbers(section(line, 0));
    let count = serials(section(line, 1), wide, &mut roster);
    let heard = serials(section(line, 2), wide, &mut mourned);
    stored::lay(
        (number(head, 0) % 256) as u8,
        serial(number(head, 1), wide),
        stored::byte(count),
        parts::of_script(&roster, count),
        stored::byte(heard),
        parts::of_script(&mourned, heard),
        out,
    )
}

// The value of a hexadecimal digit, or 16.
fn digit(c: u8) -> u8
    ensures { result ≤ 16 }
{
    match c {
        48..=57 => c - 48,
        97..=102 => c - 87,
        0..=47 | 58..=96 | 103..=255 => 16,
    }
}

// Of a first digit, 16 where there is none yet, and what follows it: 1 where they make a byte, and that byte, and the first digit after them.
fn made(high: u8, v: u8) -> usize
    ensures { result ≤ 1 }
{
    if 15 < v {
        return 0;
    }
    if 15 < high {
        return 0;
    }
    1
}

fn pair(high: u8, v: u8) -> u8 {
    if 15 < v {
        return 0;
    }
    if 15 < high {
        return 0;
    }
    high * 16 + v
}

fn after(high: u8, v: u8) -> u8 {
    if 15 < v {
        return high;
    }
    if 15 < high {
        return v;
    }
    16
}

fn store(out: &mut [u8; 1100], at: usize, x: u8) {
    if at < 1100 {
        out[at] = x;
    }
}

// The bytes that a text spells behind its first word, two digits each, and how many they are.
pub fn bytes(text: &[u8], out: &mut [u8; 1100]) -> usize {
    let mut n = 0;
    let mut high = 16;
    for c in behind(text, up_to(text, 0, b' ')) {
        let v = digit(*c);
        store(out, n, pair(high, v));
        n += made(high, v);
        high = after(high, v);
    }
    n
}

// How many bytes from a position on are the same.
fn run(list: &[u8], from: usize) -> usize
    requires { from < length list.now }
    ensures { (1 ≤ result) × (result ≤ length list.now - from) }
{
    let first = list[from];
    let rest = &list[from + 1..];
    1 + rest.iter().take_while(|x| **x == first).count()
}

// A byte in hexadecimal, and how often it stands where that is more than once.
fn say_run(to: Stdout, x: u8, count: usize) -> io::Result<()> {
    print!(to; " {x:02x}")?;
    if 1 < count {
        return print!(to; "*{count}");
    }
    Ok(())
}

// Bytes, each run of equal ones once.
pub fn say_runs(to: Stdout, list: &[u8]) -> io::Result<()> {
    let mut i = 0;
    while i < list.len() {
        let count = run(list, i);
        say_run(to, list[i], count)?;
        i += count;
    }
    Ok(())
}

// Reads until the buffer is full or the input has ended, and says how many bytes came.
pub fn read_full(from: Stdin, buf: &mut [u8]) -> io::Result<usize>
    ensures { IfOk result (λ n. n ≤ length buf.new) }
{
    let mut input = from;
    let mut done = 0;
    while done < buf.len() {
        let n = input.read(&mut buf[done..])?;
        if n == 0 {
            break;
        }
        done += n;
    }
    Ok(done)
}
