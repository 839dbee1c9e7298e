// A recovery led through a numbered case: each outcome is held to the one that documents 01 and 02 give.
use crate::tallies::Tally;
use crate::{alike, laid, outcomes, parts, say, stored, tallies};
use recovery::Recovery;
use serials::Serial;
use sets::Place;
use std::io::{self, Stdout};

// The kind is that of the records that are offered and written from here on.
#[derive(Clone, Copy)]
pub struct Run {
    pub case: u64,
    pub kind: u8,
    pub n: usize,
    pub recovery: Recovery,
    pub tally: Tally,
}

fn say_held(
    to: Stdout,
    g: Run,
    call: &[u8],
    a: u64,
    b: u64,
    expected: u64,
    came: u64,
) -> io::Result<()> {
    print!(to; "case {}, roster of {}, kind {}, ", g.case, g.n, g.kind)?;
    say::text(to, call)?;
    print!(to; " {a}:{b}")?;
    tallies::say_both(to, expected, came)
}

// One outcome of a call with two numbers that say which it is.
fn held(g: Run, call: &[u8], a: u64, b: u64, expected: u64, came: u64) -> Tally {
    let t = g.tally;
    if tallies::is_first(t, expected, came) {
        let _ = say_held(t.to, g, call, a, b, expected, came);
    }
    tallies::counted(t, expected, came)
}

// The run after an outcome.
fn after(g: Run, tally: Tally) -> Run {
    let recovery = g.recovery;
    Run {
        case: g.case,
        kind: g.kind,
        n: g.n,
        recovery,
        tally,
    }
}

// Opens with a list of serials.
pub fn opened_with(t: Tally, case: u64, kind: u8, list: &[u32]) -> Run {
    let got = recovery::open(list);
    let answer = got.answer;
    let recovery = got.recovery;
    let n = list.len();
    let tally = tallies::called(
        t,
        b"open, case and length",
        case,
        n as u64,
        0,
        outcomes::OPENED,
        outcomes::opening(answer),
    );
    Run {
        case,
        kind,
        n,
        recovery,
        tally,
    }
}

// Opens with the first n of the small rosters' serials.
pub fn opened(t: Tally, case: u64, kind: u8, n: usize) -> Run {
    let serials = stored::serials();
    opened_with(t, case, kind, parts::of_six(&serials, n))
}

// The run with records of another kind from here on.
pub fn turned(g: Run, kind: u8) -> Run {
    let recovery = g.recovery;
    let tally = g.tally;
    Run {
        case: g.case,
        kind,
        n: g.n,
        recovery,
        tally,
    }
}

// Offers bytes; the two numbers say which.
pub fn send(g: Run, bytes: &[u8], a: u64, b: u64, expected: u64) -> Run {
    let old = g.recovery;
    let got = recovery::offer(old, bytes);
    let answer = got.answer;
    let recovery = got.recovery;
    let tally = held(g, b"offer", a, b, expected, outcomes::reply(answer));
    Run {
        case: g.case,
        kind: g.kind,
        n: g.n,
        recovery,
        tally,
    }
}

// Offers the record of a place of some roster.
pub fn offer_as(g: Run, roster: &[u32], place: usize, mourned: u32, expected: u64) -> Run {
    let mut bytes = [0u8; 1100];
    let length = stored::record(g.kind, place, roster, mourned, &mut bytes);
    send(
        g,
        parts::of_record(&bytes, length),
        place as u64,
        mourned as u64,
        expected,
    )
}

// Offers the record of a place that mourns a set.
pub fn offer(g: Run, place: usize, mourned: u32, expected: u64) -> Run {
    let serials = stored::serials();
    let n = g.n;
    offer_as(g, parts::of_six(&serials, n), place, mourned, expected)
}

// The same, where its own serial is the first or the second one, and the mourned ones are second ones for a set of places.
pub fn offer_mixed(
    g: Run,
    place: usize,
    second: bool,
    mourned: u32,
    swapped: u32,
    expected: u64,
) -> Run {
    let mut bytes = [0u8; 1100];
    let length = stored::mixed(g.kind, g.n, place, second, mourned, swapped, &mut bytes);
    send(
        g,
        parts::of_record(&bytes, length),
        place as u64,
        mourned as u64,
        expected,
    )
}

// Gives a place a second serial: the answer, and what it leaves.
pub fn give(g: Run, place: usize, x: u32, expected: u64) -> Run {
    let old = g.recovery;
    let got = recovery::give(old, Place(place), Serial(x));
    let answer = got.answer;
    let recovery = got.recovery;
    let p = place as u64;
    let t = held(g, b"give", p, x as u64, expected, outcomes::giving(answer));
    let g = after(g, t);
    let equal = alike::left(old, place, x, expected, recovery);
    let tally = held(g, b"left by give", p, x as u64, 1, equal);
    Run {
        case: g.case,
        kind: g.kind,
        n: g.n,
        recovery,
        tally,
    }
}

// Writes the record of a place that mourns a set: it is in first serials.
pub fn write(g: Run, place: usize, mourned: u32) -> Run {
    let n = g.n;
    let serials = stored::serials();
    let roster = parts::of_six(&serials, n);
    let mut made = [0u8; 1100];
    let mut out = [0xaau8; 80];
    let length = stored::record(g.kind, place, roster, mourned, &mut made);
    let recovery = g.recovery;
    let got = recovery::write(recovery, Place(place), &mut out, 20);
    let end = 20 + length as u64;
    let p = place as u64;
    let m = mourned as u64;
    let t = held(g, b"write", p, m, end, outcomes::writing(got));
    let g = after(g, t);
    let same = laid::has_only(&out, 20, parts::of_record(&made, length));
    let t = held(g, b"written", p, m, 1, outcomes::truth(same));
    after(g, t)
}

// Finds a serial.
pub fn find(g: Run, x: u32, expected: u64) -> Run {
    let recovery = g.recovery;
    let got = recovery::find(recovery, Serial(x));
    let t = held(g, b"find", x as u64, 0, expected, outcomes::found(got));
    after(g, t)
}

// Asks for a place.
pub fn ask(g: Run, place: usize, expected: u64) -> Run {
    let recovery = g.recovery;
    let got = recovery::ask(recovery, Place(place));
    let t = held(g, b"ask", place as u64, 0, expected, outcomes::asked(got));
    after(g, t)
}

// The answer that a letter stands for.
fn answer(letters: &[u8], i: usize) -> u64 {
    if letters.len() <= i {
        return 0;
    }
    match letters[i] {
        b'l' => outcomes::LAST,
        b'n' => outcomes::NOT_LAST,
        b'o' => outcomes::OPEN,
        _ => 0,
    }
}

// Asks for every place: a letter stands for each answer, l, n or o.
fn asks(run: Run, letters: &[u8]) -> Run {
    let mut g = run;
    for i in 0..run.n {
        g = ask(g, i, answer(letters, i));
    }
    g
}

// Every answer, and whether the whole is settled.
pub fn answers(g: Run, letters: &[u8], settled: bool) -> Run {
    let recovery = g.recovery;
    let got = recovery::settled(recovery);
    let t = held(
        g,
        b"settled",
        0,
        0,
        outcomes::truth(settled),
        outcomes::truth(got),
    );
    asks(after(g, t), letters)
}

// The unmourned places, in two words, and their count.
pub fn unmourned(g: Run, low: u64, high: u64, count: u64) -> Run {
    let recovery = g.recovery;
    let set = recovery::unmourned(recovery);
    let t = held(g, b"unmourned", 0, 63, low, set.low);
    let g = after(g, t);
    let t = held(g, b"unmourned", 64, 127, high, set.high);
    let g = after(g, t);
    let got = recovery::unmourned_count(recovery);
    let t = held(g, b"count", 0, 0, count, got as u64);
    after(g, t)
}

// How many fetches are told, and the place.
pub fn told(g: Run, fetches: u64, next: u64) -> Run {
    let recovery = g.recovery;
    let got = recovery::to_fetch(recovery);
    let t = held(g, b"to fetch", 0, 0, fetches, outcomes::fetching(got));
    let g = after(g, t);
    let t = held(g, b"fetch next", 0, 0, next, outcomes::next(got));
    after(g, t)
}

// Plays the game out.
pub fn play(g: Run, expected: u64) -> Run {
    let recovery = g.recovery;
    let got = minimax::play(recovery);
    let t = held(g, b"play", 0, 0, expected, outcomes::played(got));
    after(g, t)
}
