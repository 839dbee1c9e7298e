// The piles of small rosters, one after another.
ghost use Rattle.std.specs.Prelude.{◌<◌, ◌≤◌};

use crate::cases::Case;
use crate::tallies::Tally;
use crate::{alike, buffers, cases, matrices, parts, piles, seconds, tallies};
use std::io::{self, Stdout};

// What is tried of a pile: its records in every order and the answers then, or only if they are of one kind, or in one order; or what
// is left in every order; or records in second serials after it; or all that is shown and written in one order, with every matrix
// checked or a sample of them.
#[derive(Clone, Copy)]
enum Trial {
    Orders,
    OneKind,
    OneOrder,
    Alike,
    Seconds,
    Histories,
    Sample,
}

// The records of a pile in one order: what is left, or every answer.
fn one_order(list: &[u32], c: Case, alike: bool, t: Tally) -> Tally {
    if alike {
        return alike::played(list, c, t);
    }
    piles::played(list, c, t)
}

// The records of a pile in every order.
fn orders(list: &[u32], n: usize, pile: u32, alike: bool, tally: Tally) -> Tally {
    let mut t = tally;
    for order in 0..cases::orders(n) {
        t = one_order(list, Case { n, pile, order }, alike, t);
    }
    t
}

// The records of a pile in every order, unless both kinds are among them.
fn of_one_kind(list: &[u32], c: Case, t: Tally) -> Tally {
    if cases::lacks(c, 1) || cases::lacks(c, 2) {
        return orders(list, c.n, c.pile, false, t);
    }
    t
}

// All that is shown and written, and every so many-th matrix and history checked, not the same ones for each pile.
fn histories(list: &[u32], c: Case, tally: Tally, matrix: u32, history: usize) -> Tally
    requires { (0 < matrix) × (matrix ≤ 65536) × (0 < history) × (history ≤ 1024) }
{
    let g = piles::offers(list, c, tally);
    let r = &g.recovery;
    let pile = g.pile;
    let t = g.tally;
    let t = buffers::places(list, c, r, pile, t);
    let t = buffers::checks(c, r, pile, t, c.pile % matrix, matrix);
    buffers::listed(list, c, r, pile, t, c.pile as usize % history, history)
}

fn try_pile(list: &[u32], n: usize, pile: u32, trial: Trial, t: Tally) -> Tally {
    let c = Case {
        n,
        pile,
        order: pile % 24,
    };
    match trial {
        Trial::Orders => orders(list, n, pile, false, t),
        Trial::OneKind => of_one_kind(list, c, t),
        Trial::OneOrder => piles::played(list, c, t),
        Trial::Alike => orders(list, n, pile, true, t),
        Trial::Seconds => seconds::played(list, c, t),
        Trial::Histories => histories(list, c, t, 1, 1),
        Trial::Sample => histories(list, c, t, 8191, 37),
    }
}

fn all_piles(list: &[u32], n: usize, trial: Trial, tally: Tally) -> Tally {
    let mut t = tally;
    for pile in 0..cases::piles(n) {
        t = try_pile(list, n, pile, trial, t);
    }
    t
}

// Every pile of a roster, beside the list of all its histories.
fn roster(n: usize, trial: Trial, t: Tally) -> Tally {
    let mut list = [0u32; 1024];
    let count = matrices::gather(n, &mut list);
    all_piles(parts::of_listed(&list, count), n, trial, t)
}

// Rosters of one, two and three places.
fn small_rosters(to: Stdout, trial: Trial) -> Tally {
    let t = roster(1, trial, tallies::none(to));
    let t = roster(2, trial, t);
    roster(3, trial, t)
}

fn of_four(to: Stdout, trial: Trial) -> Tally {
    roster(4, trial, tallies::none(to))
}

pub fn of_small_rosters(to: Stdout) -> io::Result<()> {
    tallies::report(
        b"every pile of 1 to 3 places of every mix of kinds in every order",
        small_rosters(to, Trial::Orders),
    )?;
    tallies::report(
        b"every acceptable pile of 1 to 3 places of every mix of kinds in every order, recoveries compared",
        small_rosters(to, Trial::Alike),
    )?;
    tallies::report(
        b"every pile of 1 to 3 places of every mix of kinds, shown, written and checked",
        small_rosters(to, Trial::Histories),
    )?;
    tallies::report(
        b"every pile of 1 to 3 places of every mix of kinds, and after it every record of both kinds in every mix of first and second serials",
        small_rosters(to, Trial::Seconds),
    )
}

pub fn of_four_places(to: Stdout) -> io::Result<()> {
    tallies::report(
        b"every pile of 4 places of one kind in every order",
        of_four(to, Trial::OneKind),
    )?;
    tallies::report(
        b"every pile of 4 places of every mix of kinds in one order",
        of_four(to, Trial::OneOrder),
    )?;
    tallies::report(
        b"every pile of 4 places of every mix of kinds, shown, written and checked",
        of_four(to, Trial::Sample),
    )
}
