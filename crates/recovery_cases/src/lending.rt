// The calls that are lent a buffer: its bytes are printed afterwards, 0xaa where nothing was written.
use crate::offering;
use recovery::Recovery;
use scripts::List;
use std::io::{self, Stdout};
use trials::{outcomes, parts, say};

fn size(said: List, k: usize) -> usize {
    scripts::number(said, k) as usize
}

pub fn list(to: Stdout, r: Recovery, words: &[u8]) -> io::Result<()> {
    let said = scripts::numbers(scripts::section(words, 0));
    let mut out = [0xaau8; 160];
    let got = recovery::list(r, parts::lent(&mut out, size(said, 0)));
    offering::answer(to, outcomes::listing(got))?;
    say::text(to, b",")?;
    scripts::say_runs(to, &out)
}

pub fn show(to: Stdout, r: Recovery, words: &[u8]) -> io::Result<()> {
    let said = scripts::numbers(scripts::section(words, 0));
    let mut first = [0xaau8; 160];
    let mut second = [0xaau8; 160];
    let got = recovery::show(
        r,
        offering::place(said, 0),
        parts::lent(&mut first, size(said, 1)),
        parts::lent(&mut second, size(said, 2)),
    );
    offering::answer(to, outcomes::showing(got))?;
    say::text(to, b",")?;
    scripts::say_runs(to, &first)?;
    say::text(to, b",")?;
    scripts::say_runs(to, &second)
}

// The byte and the position before it that a list has from some number on, if it has both.
fn put(out: &mut [u8; 160], said: List, k: usize) {
    let at = size(said, k);
    if k < said.count && at < 160 {
        out[at] = (scripts::number(said, std::num::wrapping_add_usize(k, 1)) % 256) as u8;
    }
}

pub fn check(to: Stdout, r: Recovery, words: &[u8]) -> io::Result<()> {
    let said = scripts::numbers(scripts::section(words, 0));
    let mut history = [0u8; 160];
    put(&mut history, said, 1);
    put(&mut history, said, 3);
    let got = recovery::check(r, parts::of_lent(&history, size(said, 0)));
    offering::answer(to, outcomes::checked(got))
}

pub fn write(to: Stdout, r: Recovery, words: &[u8]) -> io::Result<()> {
    let said = scripts::numbers(scripts::section(words, 0));
    let mut out = [0xaau8; 160];
    let got = recovery::write(
        r,
        offering::place(said, 0),
        parts::lent(&mut out, size(said, 1)),
        size(said, 2),
    );
    offering::answer(to, outcomes::writing(got))?;
    say::text(to, b",")?;
    scripts::say_runs(to, &out)
}
