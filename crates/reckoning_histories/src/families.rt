// The piles of small rosters, one after another.
ghost use Rattle.std.specs.Prelude.{◌≤◌, ◌<◌};

use crate::buffers;
use matrices::cases;
use matrices::cases::Case;
use piles::alike;
use std::io::{self, Stdout};
use trials::tallies::Tally;
use trials::{parts, tallies};

// What is tried of a pile: what is left in every order of its records; or all that is shown and written in one order, with every matrix
// checked or a sample of them.
#[derive(Clone, Copy)]
enum Trial {
    Alike,
    Histories,
    Sample,
}

// The records of a pile in every order.
fn orders(list: &[u32], n: usize, pile: u32, tally: Tally) -> Tally {
    let mut t = tally;
    for order in 0..cases::orders(n) {
        t = alike::played(list, Case { n, pile, order }, t);
    }
    t
}

// All that is shown and written, and every so many-th matrix and history checked, not the same ones for each pile.
fn histories(list: &[u32], c: Case, tally: Tally, matrix: u32, history: usize) -> Tally
    requires { (0 < matrix) × (matrix ≤ 65536) × (0 < history) × (history ≤ 1024) }
{
    let g = piles::offers(list, c, tally);
    let r = g.recovery;
    let pile = g.pile;
    let t = g.tally;
    let t = buffers::places(list, c, r, pile, t);
    let t = buffers::checks(c, r, pile, t, c.pile % matrix, matrix);
    buffers::listed(list, c, r, pile, t, c.pile as usize % history, history)
}

fn try_pile(list: &[u32], n: usize, pile: u32, trial: Trial, t: Tally) -> Tally {
    let c = Case {
        n,
        pile,
        order: pile % 24,
    };
    match trial {
        Trial::Alike => orders(list, n, pile, t),
        Trial::Histories => histories(list, c, t, 1, 1),
        Trial::Sample => histories(list, c, t, 8191, 37),
    }
}

fn all_piles(list: &[u32], n: usize, trial: Trial, tally: Tally) -> Tally {
    let mut t = tally;
    for pile in 0..cases::piles(n) {
        t = try_pile(list, n, pile, trial, t);
    }
    t
}

// Every pile of a roster, beside the list of all its histories.
fn roster(n: usize, trial: Trial, t: Tally) -> Tally {
    let mut list = [0u32; 1024];
    let count = matrices::gather(n, &mut list);
    all_piles(parts::of_listed(&list, count), n, trial, t)
}

// Rosters of one, two and three places.
fn small_rosters(to: Stdout, trial: Trial) -> Tally {
    let t = roster(1, trial, tallies::none(to));
    let t = roster(2, trial, t);
    roster(3, trial, t)
}

pub fn of_small_rosters(to: Stdout) -> io::Result<()> {
    tallies::report(
        b"every acceptable pile of 1 to 3 places of every mix of kinds in every order, recoveries compared",
        small_rosters(to, Trial::Alike),
    )?;
    tallies::report(
        b"every pile of 1 to 3 places of every mix of kinds, shown, written and checked",
        small_rosters(to, Trial::Histories),
    )
}

pub fn of_four_places(to: Stdout) -> io::Result<()> {
    tallies::report(
        b"every pile of 4 places of every mix of kinds, shown, written and checked",
        roster(4, Trial::Sample, tallies::none(to)),
    )
}
