// A family's cases: how many were tried, and how many differ. Only the first that differs is printed. Where that fails, the family's
// line, which comes after it, tells the count, or fails too.
use crate::{outcomes, say};
use std::io::{self, Stdout};

#[derive(Clone, Copy)]
pub struct Tally {
    pub to: Stdout,
    pub tried: u64,
    pub differing: u64,
}

pub fn none(to: Stdout) -> Tally {
    Tally {
        to,
        tried: 0,
        differing: 0,
    }
}

// The tally after one more case.
pub fn counted(t: Tally, expected: u64, came: u64) -> Tally {
    let tried = std::num::wrapping_add_u64(t.tried, 1);
    if expected == came {
        return Tally {
            to: t.to,
            tried,
            differing: t.differing,
        };
    }
    Tally {
        to: t.to,
        tried,
        differing: std::num::wrapping_add_u64(t.differing, 1),
    }
}

// Whether a case is the first that differs.
pub fn is_first(t: Tally, expected: u64, came: u64) -> bool {
    if expected == came {
        return false;
    }
    t.differing == 0
}

// The end of a line about a case that differs.
pub fn say_both(to: Stdout, expected: u64, came: u64) -> io::Result<()> {
    say::text(to, b": expected ")?;
    outcomes::write(to, expected)?;
    say::text(to, b", came ")?;
    outcomes::write(to, came)?;
    say::text(to, b"\n")
}

fn say_called(
    to: Stdout,
    call: &[u8],
    a: u64,
    b: u64,
    c: u64,
    expected: u64,
    came: u64,
) -> io::Result<()> {
    say::text(to, call)?;
    print!(to; " {a} {b} {c}")?;
    say_both(to, expected, came)
}

// A call with up to three numbers that say which it is.
pub fn called(t: Tally, call: &[u8], a: u64, b: u64, c: u64, expected: u64, came: u64) -> Tally {
    if is_first(t, expected, came) {
        let _ = say_called(t.to, call, a, b, c, expected, came);
    }
    counted(t, expected, came)
}

// The line of a family.
pub fn report(name: &[u8], t: Tally) -> io::Result<()> {
    let to = t.to;
    say::text(to, name)?;
    print!(to; ": {} cases", t.tried)?;
    if t.differing != 0 {
        print!(to; ", of which differ {}", t.differing)?;
    }
    say::text(to, b"\n")
}
