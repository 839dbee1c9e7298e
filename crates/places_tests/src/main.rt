// A client of `places`: it walks the members of a set, proved from the laws alone, and prints some sets.
#![tactic(auto)]

ghost use Rattle.std.specs.Prelude.{◌≡◌};
ghost use Rattle.sets.specs.Sets as sets;
ghost use Rattle.sets.specs.PlaceSets.{has};

use sets::{Place, PlaceSet};
use std::io::{self, Stdout};

// How many members, one after another.
fn tally(s: PlaceSet) -> usize
    ensures { result ≡ sets.count 128 (has s) }
{
    let mut n = 0;
    for _ in places::members(s) {
        n += 1;
    }
    n
}

// The members in rising order.
fn print_members(out: Stdout, s: PlaceSet) -> io::Result<()> {
    for p in places::members(s) {
        print!(out; "{} ", p.0)?;
    }
    Ok(())
}

// One line: the members, how many were passed one by one, and the count.
fn print(out: Stdout, s: PlaceSet) -> io::Result<()> {
    print_members(out, s)?;
    println!(out; "| {} {}", tally(s), places::count(s))
}

fn main(rt: HostRuntime) -> io::Result<()> {
    let out = rt.stdout();
    let a = places::below(3);
    let b = places::with(places::with(a, Place(64)), Place(127));
    print(out, places::empty())?;
    print(out, a)?;
    print(out, b)?;
    // a place of 128 or more is in no set and changes none
    print(out, places::with(a, Place(128)))?;
    print(out, places::without(b, Place(0xffff_ffff_ffff_ffff)))?;
    print(out, places::only(Place(128)))?;
    println!(out; "{}", places::contains(b, Place(127)))?;
    println!(out; "{}", places::contains(b, Place(128)))?;
    print(out, places::without(b, Place(64)))?;
    print(
        out,
        places::union(places::only(Place(63)), places::only(Place(64))),
    )?;
    print(out, places::intersection(a, b))?;
    print(out, places::difference(b, a))?;
    println!(out; "{}", places::is_subset(a, b))?;
    println!(out; "{}", places::is_subset(b, a))?;
    println!(out; "{}", places::is_empty(places::difference(a, b)))?;
    println!(out;
        "{}",
        places::same(
            a,
            places::without(places::without(b, Place(64)), Place(127)),
        )
    )?;
    print(
        out,
        places::difference(places::below(1000), places::below(120)),
    )
}
