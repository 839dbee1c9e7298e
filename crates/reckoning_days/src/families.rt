// The lists, one after another.
ghost use Rattle.std.specs.Prelude.{◌<◌, ◌≤◌};

use crate::event_lists::Case;
use crate::pairs::Pair;
use crate::plain::Plain;
use crate::tallies::Tally;
use crate::{event_lists, pairs, parts, plain, returns, stored, tallies};
use days::Day;
use recovery::Recovery;
use std::io::{self, Stdout};

// Whether a list ends at its first refusal, or goes on after it.
#[derive(Clone, Copy)]
enum Trial {
    Played,
    Happened,
}

fn day(kind: u8, n: usize) -> Day {
    let serials = stored::serials();
    let got = days::open(kind, parts::of_three(&serials, n));
    got.day
}

fn group(n: usize) -> Recovery {
    let serials = stored::serials();
    let got = recovery::open(parts::of_three(&serials, n));
    got.recovery
}

fn try_list(d: Day, c: Case, trial: Trial, t: Tally) -> Tally {
    match trial {
        Trial::Played => pairs::writes(c, pairs::play(d, c, t)),
        Trial::Happened => pairs::writes(c, pairs::happens(d, c, t)),
    }
}

// Every list of a length.
fn of_length(d: Day, kind: u8, n: usize, length: usize, trial: Trial, tally: Tally) -> Tally {
    let mut t = tally;
    for list in 0..event_lists::lists(n, length) {
        let c = Case {
            kind,
            n,
            length,
            list,
        };
        t = try_list(d, c, trial, t);
    }
    t
}

// Every list of fewer events than so many.
fn shorter(kind: u8, n: usize, than: usize, trial: Trial, tally: Tally) -> Tally {
    let d = day(kind, n);
    let mut t = tally;
    for length in 0..than {
        t = of_length(d, kind, n, length, trial, t);
    }
    t
}

fn both_kinds(to: Stdout, n: usize, than: usize, trial: Trial) -> Tally {
    let t = shorter(1, n, than, trial, tallies::none(to));
    shorter(2, n, than, trial, t)
}

pub fn of_lists(to: Stdout) -> io::Result<()> {
    tallies::report(
        b"two controllers, every list of up to 5 events",
        both_kinds(to, 2, 6, Trial::Played),
    )?;
    tallies::report(
        b"two controllers, every event of lists of up to 4 by itself",
        both_kinds(to, 2, 5, Trial::Happened),
    )?;
    tallies::report(
        b"three controllers, every list of up to 5 events",
        both_kinds(to, 3, 6, Trial::Played),
    )?;
    tallies::report(
        b"three controllers, every event of lists of up to 4 by itself",
        both_kinds(to, 3, 5, Trial::Happened),
    )
}

// How far the next list is: those that begin with the same events up to a refused one are passed over.
fn stride(c: Case, d: Plain) -> u64
    ensures { (0 < result) × (result ≤ 4294967296) }
{
    if d.refusal == 0 {
        return 1;
    }
    event_lists::alike(c, d.count as usize)
}

// The records of every place, and where all have stopped, all of them brought back.
fn finish(c: Case, g: Pair, r: Recovery) -> Tally {
    let t = pairs::writes(c, g);
    let plain = g.plain;
    if !plain::all_stopped(plain) {
        return t;
    }
    returns::in_every_order(c, g, r, t)
}

// Every list of a length with no refused event but at its end.
fn allowed(d: Day, r: Recovery, kind: u8, n: usize, length: usize, tally: Tally) -> Tally {
    let mut t = tally;
    let mut list = 0u64;
    while list < event_lists::lists(n, length) {
        let c = Case {
            kind,
            n,
            length,
            list,
        };
        let g = pairs::play(d, c, t);
        let plain = g.plain;
        let next = finish(c, g, r);
        t = next;
        let further = stride(c, plain);
        list += further;
    }
    t
}

fn allowed_up_to(kind: u8, n: usize, tally: Tally) -> Tally {
    let d = day(kind, n);
    let r = group(n);
    let mut t = tally;
    for length in 0..8 {
        t = allowed(d, r, kind, n, length, t);
    }
    t
}

pub fn of_allowed(to: Stdout) -> io::Result<()> {
    let t = allowed_up_to(1, 2, tallies::none(to));
    let t = allowed_up_to(2, 2, t);
    tallies::report(
        b"two controllers, every list of up to 7 allowed events, the records brought back in every order",
        t,
    )?;
    let t = allowed_up_to(1, 3, tallies::none(to));
    let t = allowed_up_to(2, 3, t);
    tallies::report(
        b"three controllers, every list of up to 7 allowed events, the records brought back in every order",
        t,
    )
}
