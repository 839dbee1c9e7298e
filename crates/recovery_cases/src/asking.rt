// The calls that leave a recovery as it is.
use crate::{lending, offering};
use recovery::Recovery;
use serials::Serial;
use sets::{Place, PlaceSet};
use std::io::{self, Stdout};
use trials::{outcomes, say};

fn ask(to: Stdout, r: Recovery, words: &[u8]) -> io::Result<()> {
    let said = scripts::numbers(scripts::section(words, 0));
    offering::answer(
        to,
        outcomes::asked(recovery::ask(r, offering::place(said, 0))),
    )
}

fn find_one(to: Stdout, r: Recovery, x: u32) -> io::Result<()> {
    say::text(to, b" ")?;
    outcomes::write(to, outcomes::found(recovery::find(r, Serial(x))))
}

// Where each serial of a list stands.
fn find(to: Stdout, r: Recovery, wide: bool, words: &[u8]) -> io::Result<()> {
    let said = scripts::numbers(scripts::section(words, 0));
    say::text(to, b" ->")?;
    for x in said.of.iter().take(said.count) {
        find_one(to, r, scripts::serial(*x, wide))?;
    }
    Ok(())
}

// The answer for each place of the roster.
fn places(to: Stdout, r: Recovery) -> io::Result<()> {
    for p in 0..r.count {
        outcomes::say_letter(to, outcomes::asked(recovery::ask(r, Place(p))))?;
    }
    Ok(())
}

// A set in hexadecimal, its high word first where there is one.
fn set(to: Stdout, name: &[u8], got: PlaceSet) -> io::Result<()> {
    say::text(to, name)?;
    if got.high != 0 {
        say::hex(to, got.high)?;
        say::text(to, b":")?;
    }
    say::hex(to, got.low)
}

fn whole(to: Stdout, settled: bool) -> io::Result<()> {
    if settled {
        say::text(to, b", whole settled")
    } else {
        say::text(to, b", whole open")
    }
}

// Every answer.
fn tell(to: Stdout, r: Recovery) -> io::Result<()> {
    say::text(to, b" -> ")?;
    places(to, r)?;
    whole(to, recovery::settled(r))?;
    set(to, b", unmourned ", recovery::unmourned(r))?;
    set(to, b", absent ", recovery::unmourned_absent(r))?;
    say::text(to, b", count ")?;
    say::number(to, recovery::unmourned_count(r) as u64)?;
    let got = recovery::to_fetch(r);
    say::text(to, b", fetch ")?;
    outcomes::write(to, outcomes::fetching(got))?;
    say::text(to, b", next ")?;
    outcomes::write(to, outcomes::next(got))
}

// A line, by its first letter; any other is a heading.
pub fn call(to: Stdout, r: Recovery, wide: bool, words: &[u8]) -> io::Result<()> {
    match scripts::byte(words, 0) {
        b'a' => ask(to, r, words),
        b't' => tell(to, r),
        b'f' => find(to, r, wide, words),
        b'l' => lending::list(to, r, words),
        b's' => lending::show(to, r, words),
        b'c' => lending::check(to, r, words),
        b'w' => lending::write(to, r, words),
        b'p' => offering::answer(to, outcomes::played(minimax::play(r))),
        _ => Ok(()),
    }
}
