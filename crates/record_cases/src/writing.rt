// Writing a record into a lent buffer of so many bytes, 0xaa at first.
use crate::stage;
use crate::stage::Stage;
use histories::Kind;
use scripts::List;
use sets::{Place, PlaceSet};
use std::io::{self, Stdout};
use trials::{outcomes, parts, say};

fn kind(said: List) -> Kind {
    if scripts::number(said, 0) == 1 {
        return Kind::Full;
    }
    Kind::Short
}

// The set of the places of a list.
fn set(said: List) -> PlaceSet {
    let mut heard = places::empty();
    for x in said.of.iter().take(said.count) {
        heard = places::with(heard, Place(*x as usize));
    }
    heard
}

// The record that a line describes: where it ends or the refusal, and the first 48 bytes of the buffer, which is to be read from here on.
pub fn write(to: Stdout, s: Stage, words: &[u8]) -> io::Result<Stage> {
    let said = scripts::numbers(scripts::section(words, 0));
    let roster = stage::listed(s, words, 1);
    let of = roster.of;
    let heard = set(scripts::numbers(scripts::section(words, 2)));
    let mut out = [0xaau8; 1100];
    let room = scripts::number(said, 2) as usize;
    let got = writes::write(
        kind(said),
        Place(scripts::number(said, 1) as usize),
        parts::of_script(&of, roster.count),
        heard,
        parts::lent(&mut out, room),
        scripts::number(said, 3) as usize,
    );
    say::text(to, b" -> ")?;
    outcomes::write(to, outcomes::writing(got))?;
    say::text(to, b",")?;
    scripts::say_runs(to, parts::of_record(&out, 48))?;
    Ok(stage::with(s, out, room))
}
