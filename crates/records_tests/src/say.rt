// One printed line for each case: its name, and the answer that it got.
use histories::Kind;
use records::{Record, Sight};
use refusals::Refusal;
use serials::Finding;
use sets::{Place, PlaceSet};
use std::io::{self, Stdout};

pub fn text(to: Stdout, words: &[u8]) -> io::Result<()> {
    to.write_all(words)
}

pub fn number(to: Stdout, n: usize) -> io::Result<()> {
    to.print(n)
}

fn title(to: Stdout, name: &[u8]) -> io::Result<()> {
    text(to, name)?;
    text(to, b": ")
}

fn refused(to: Stdout, refusal: Refusal) -> io::Result<()> {
    println!(to; "refused {}", refusal as u8)
}

fn kind(to: Stdout, k: Kind) -> io::Result<()> {
    match k {
        Kind::Full => text(to, b"full"),
        Kind::Short => text(to, b"short"),
    }
}

// The members of a set, in order.
fn members(to: Stdout, set: PlaceSet) -> io::Result<()> {
    for p in 0..128 {
        if places::contains(set, Place(p)) {
            print!(to; " {p}")?;
        }
    }
    Ok(())
}

pub fn reading(to: Stdout, name: &[u8], got: Result<Record, Refusal>) -> io::Result<()> {
    title(to, name)?;
    match got {
        Err(fault) => refused(to, fault),
        Ok(record) => {
            kind(to, record.kind)?;
            print!(to; ", place {} of {}", record.own.0, record.count)?;
            print!(to; ", roster at {}, mourned", record.roster)?;
            members(to, record.mourned)?;
            println!(to; ", next {}", record.next)
        }
    }
}

// The bytes of a slice, in order.
fn bytes(to: Stdout, part: &[u8]) -> io::Result<()> {
    for x in part {
        print!(to; " {x}")?;
    }
    text(to, b"\n")
}

pub fn sight(
    to: Stdout,
    name: &[u8],
    got: Result<Sight, Refusal>,
    roster: &[u8],
) -> io::Result<()> {
    title(to, name)?;
    match got {
        Err(refusal) => print!(to; "refused {}", refusal as u8)?,
        Ok(seen) => {
            kind(to, seen.kind)?;
            print!(to; ", own serial {}", seen.own.0)?;
        }
    }
    text(to, b", part")?;
    bytes(to, roster)
}

pub fn listed(to: Stdout, name: &[u8], got: Result<(), Refusal>) -> io::Result<()> {
    title(to, name)?;
    match got {
        Err(fault) => refused(to, fault),
        Ok(()) => text(to, b"sound\n"),
    }
}

pub fn found(to: Stdout, name: &[u8], got: Option<Finding>) -> io::Result<()> {
    title(to, name)?;
    match got {
        None => text(to, b"nothing\n"),
        Some(Finding::First(place)) => println!(to; "place {}", place.0),
        Some(Finding::Second(place)) => println!(to; "place {}, its second serial", place.0),
    }
}

pub fn writing(to: Stdout, name: &[u8], got: Result<usize, Refusal>) -> io::Result<()> {
    title(to, name)?;
    match got {
        Err(fault) => refused(to, fault),
        Ok(next) => println!(to; "next {next}"),
    }
}

pub fn truth(to: Stdout, name: &[u8], got: bool) -> io::Result<()> {
    title(to, name)?;
    if got {
        text(to, b"yes\n")
    } else {
        text(to, b"no\n")
    }
}

pub fn count(to: Stdout, name: &[u8], got: usize) -> io::Result<()> {
    title(to, name)?;
    println!(to; "{got}")
}
