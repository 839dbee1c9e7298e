// A day led through cases by hand. Each line of `stdin` is a call on it or a heading, and `stdout` has the line with what the call gave.
// Behind a number sign stands a remark. The calls, by their first letters:
//     unit N                serials are multiples of 65536 from here on where N is that, else what they are
//     open KIND: SERIALS    a new day
//     stop PLACES           these stop, one after the other, up to the first refusal
//     hear PLACE PLACES     one hears of these, likewise
//     event KIND PLACE PLACE
//     write PLACE ROOM AT   a record into a buffer of so many bytes
//     bring PLACES          their records, offered one after the other to a recovery that was opened with the day's list
//     tell                  what the recovery then answers of each place: l last, n not, o open
#![tactic(auto)]

use days::{Day, Event, Played};
use recovery::Recovery;
use scripts::List;
use sets::Place;
use std::io::{self, Stdout};
use trials::{outcomes, parts, say};

// A day, a recovery of its list, and whether serials are multiples of 65536.
#[derive(Clone, Copy)]
struct Stage {
    day: Day,
    recovery: Recovery,
    wide: bool,
}

fn main(rt: HostRuntime) -> io::Result<()> {
    let mut input = [0u8; 65536];
    let n = scripts::read_full(rt.stdin(), &mut input)?;
    lines(rt.stdout(), &input[..n])
}

// A day whose opening was refused: it has no places.
fn unopened() -> Stage {
    let got = days::open(0, &[7, 8]);
    let day = got.day;
    let group = recovery::open(&[0]);
    let recovery = group.recovery;
    Stage {
        day,
        recovery,
        wide: false,
    }
}

fn with(s: Stage, day: Day) -> Stage {
    let mut next = s;
    next.day = day;
    next
}

fn unit(s: Stage, words: &[u8]) -> Stage {
    let mut next = s;
    next.wide = scripts::is_wide(words);
    next
}

// What an outcome says, behind its line.
fn answer(to: Stdout, got: u64) -> io::Result<()> {
    say::text(to, b" -> ")?;
    outcomes::write(to, got)
}

fn open(to: Stdout, s: Stage, words: &[u8]) -> io::Result<Stage> {
    let head = scripts::numbers(scripts::section(words, 0));
    let mut list = [0u32; 300];
    let n = scripts::serials(scripts::section(words, 1), s.wide, &mut list);
    let kind = (scripts::number(head, 0) % 256) as u8;
    let got = days::open(kind, parts::of_script(&list, n));
    let opening = got.answer;
    let day = got.day;
    answer(to, outcomes::opening(opening))?;
    let group = recovery::open(parts::of_script(&list, n));
    let recovery = group.recovery;
    Ok(Stage {
        day,
        recovery,
        wide: s.wide,
    })
}

// How many events were played, and the refusal that ended them.
fn told(to: Stdout, got: Played) -> io::Result<()> {
    say::text(to, b" -> played ")?;
    say::number(to, got.count as u64)?;
    match got.answer {
        Ok(()) => Ok(()),
        Err(refusal) => {
            say::text(to, b", refused ")?;
            say::number(to, refusal as u64)
        }
    }
}

// Event number k of a line: a stop of each of its places, or a hearing of each place behind the first.
fn event(kind: u8, said: List, k: usize) -> Event {
    let place = scripts::number(said, k) as usize;
    let first = scripts::number(said, 0) as usize;
    if kind == 1 {
        return Event {
            kind,
            place: Place(place),
            other: Place(0),
        };
    }
    Event {
        kind,
        place: Place(first),
        other: Place(place),
    }
}

// The events of a line from number `from` on.
fn events(to: Stdout, s: Stage, kind: u8, said: List, from: usize) -> io::Result<Stage> {
    let old = s.day;
    let mut p = Played {
        count: 0,
        answer: Ok(()),
        day: old,
    };
    for k in from..said.count {
        p = days::step(p, event(kind, said, k));
    }
    told(to, p)?;
    let day = p.day;
    Ok(with(s, day))
}

// One event of any kind, by itself.
fn happen(to: Stdout, s: Stage, said: List) -> io::Result<Stage> {
    let old = s.day;
    let e = Event {
        kind: (scripts::number(said, 0) % 256) as u8,
        place: Place(scripts::number(said, 1) as usize),
        other: Place(scripts::number(said, 2) as usize),
    };
    let got = days::happen(old, e);
    let met = got.answer;
    let day = got.day;
    answer(to, outcomes::happening(met))?;
    Ok(with(s, day))
}

fn write(to: Stdout, s: Stage, said: List) -> io::Result<()> {
    let day = s.day;
    let mut out = [0xaau8; 160];
    let room = scripts::number(said, 1) as usize;
    let got = days::write(
        day,
        Place(scripts::number(said, 0) as usize),
        parts::lent(&mut out, room),
        scripts::number(said, 2) as usize,
    );
    answer(to, outcomes::writing(got))?;
    say::text(to, b",")?;
    scripts::say_runs(to, &out)
}

// The record of one place, as the day writes it, offered; no bytes where it writes none.
fn bring_one(to: Stdout, s: Stage, place: usize) -> io::Result<Stage> {
    let day = s.day;
    let old = s.recovery;
    let mut out = [0u8; 1100];
    let end = days::write(day, Place(place), &mut out, 0).unwrap_or(0);
    let got = recovery::offer(old, parts::of_record(&out, end));
    let reply = got.answer;
    let recovery = got.recovery;
    say::text(to, b" ")?;
    outcomes::write(to, outcomes::reply(reply))?;
    let mut next = s;
    next.recovery = recovery;
    Ok(next)
}

fn bring(to: Stdout, start: Stage, said: List) -> io::Result<Stage> {
    let mut s = start;
    say::text(to, b" ->")?;
    for x in said.of.iter().take(said.count) {
        s = bring_one(to, s, *x as usize)?;
    }
    Ok(s)
}

// The answer for each place of the recovery.
fn tell(to: Stdout, r: Recovery) -> io::Result<()> {
    say::text(to, b" -> ")?;
    for p in 0..r.count {
        outcomes::say_letter(to, outcomes::asked(recovery::ask(r, Place(p))))?;
    }
    Ok(())
}

// A line, by its first letter; any other is a heading.
fn call(to: Stdout, s: Stage, words: &[u8]) -> io::Result<Stage> {
    let said = scripts::numbers(scripts::section(words, 0));
    match scripts::byte(words, 0) {
        b'u' => Ok(unit(s, words)),
        b'o' => open(to, s, words),
        b's' => events(to, s, 1, said, 0),
        b'h' => events(to, s, 2, said, 1),
        b'e' => happen(to, s, said),
        b'b' => bring(to, s, said),
        b'w' => {
            write(to, s, said)?;
            Ok(s)
        }
        b't' => {
            let recovery = s.recovery;
            tell(to, recovery)?;
            Ok(s)
        }
        _ => Ok(s),
    }
}

// One line, and the day after it.
fn line(to: Stdout, s: Stage, words: &[u8]) -> io::Result<Stage> {
    say::text(to, words)?;
    let next = call(to, s, words)?;
    say::text(to, b"\n")?;
    Ok(next)
}

fn lines(to: Stdout, input: &[u8]) -> io::Result<()> {
    let mut s = unopened();
    let mut from = 0;
    while from < input.len() {
        let n = scripts::up_to(input, from, b'\n');
        let next = line(to, s, scripts::part(input, from, n))?;
        s = next;
        from += n;
        from += 1;
    }
    Ok(())
}
