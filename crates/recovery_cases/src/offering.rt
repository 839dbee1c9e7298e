// The calls that change a recovery: opening it, offering a record, giving a second serial.
use crate::asking;
use recovery::Recovery;
use scripts::List;
use serials::Serial;
use sets::Place;
use std::io::{self, Stdout};
use trials::{outcomes, parts, say};

// A recovery, and whether serials are multiples of 65536.
#[derive(Clone, Copy)]
pub struct Stage {
    pub recovery: Recovery,
    pub wide: bool,
}

// What an outcome says, behind its line.
pub fn answer(to: Stdout, got: u64) -> io::Result<()> {
    say::text(to, b" -> ")?;
    outcomes::write(to, got)
}

// A recovery whose opening was refused: it has no places.
pub fn unopened() -> Stage {
    let got = recovery::open(&[0]);
    let recovery = got.recovery;
    Stage {
        recovery,
        wide: false,
    }
}

fn with(s: Stage, recovery: Recovery) -> Stage {
    Stage {
        recovery,
        wide: s.wide,
    }
}

fn unit(s: Stage, words: &[u8]) -> Stage {
    let recovery = s.recovery;
    Stage {
        recovery,
        wide: scripts::is_wide(words),
    }
}

fn open(to: Stdout, s: Stage, words: &[u8]) -> io::Result<Stage> {
    let mut list = [0u32; 300];
    let n = scripts::serials(scripts::section(words, 0), s.wide, &mut list);
    let got = recovery::open(parts::of_script(&list, n));
    let opening = got.answer;
    let recovery = got.recovery;
    answer(to, outcomes::opening(opening))?;
    Ok(with(s, recovery))
}

fn offered(to: Stdout, s: Stage, record: &[u8]) -> io::Result<Stage> {
    let old = s.recovery;
    let got = recovery::offer(old, record);
    let reply = got.answer;
    let recovery = got.recovery;
    answer(to, outcomes::reply(reply))?;
    Ok(with(s, recovery))
}

fn record(to: Stdout, s: Stage, words: &[u8]) -> io::Result<Stage> {
    let mut made = [0u8; 1100];
    let n = scripts::lay(words, s.wide, &mut made);
    offered(to, s, parts::of_record(&made, n))
}

fn bytes(to: Stdout, s: Stage, words: &[u8]) -> io::Result<Stage> {
    let mut spelled = [0u8; 1100];
    let n = scripts::bytes(scripts::section(words, 0), &mut spelled);
    offered(to, s, parts::of_record(&spelled, n))
}

// A number of a list as a place.
pub fn place(list: List, k: usize) -> Place {
    Place(scripts::number(list, k) as usize)
}

// One second serial for a place.
fn give_one(to: Stdout, s: Stage, place: usize, x: u64) -> io::Result<Stage> {
    let old = s.recovery;
    let got = recovery::give(old, Place(place), Serial(scripts::serial(x, s.wide)));
    let giving = got.answer;
    let recovery = got.recovery;
    say::text(to, b" ")?;
    outcomes::write(to, outcomes::giving(giving))?;
    Ok(with(s, recovery))
}

// Second serials for the places from one on.
fn give(to: Stdout, start: Stage, words: &[u8]) -> io::Result<Stage> {
    let said = scripts::numbers(scripts::section(words, 0));
    let place = scripts::number(said, 0) as usize;
    let mut s = start;
    say::text(to, b" ->")?;
    for (i, x) in said.of.iter().take(said.count).skip(1).enumerate() {
        s = give_one(to, s, place.wrapping_add(i), *x)?;
    }
    Ok(s)
}

// A line, by its first letter.
pub fn call(to: Stdout, s: Stage, words: &[u8]) -> io::Result<Stage> {
    match scripts::byte(words, 0) {
        b'u' => Ok(unit(s, words)),
        b'o' => open(to, s, words),
        b'r' => record(to, s, words),
        b'b' => bytes(to, s, words),
        b'g' => give(to, s, words),
        _ => {
            let recovery = s.recovery;
            asking::call(to, recovery, s.wide, words)?;
            Ok(s)
        }
    }
}
