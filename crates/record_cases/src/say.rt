// The answers of readers, behind their line.
use histories::Kind;
use layouts::{Record, Sight};
use refusals::Refusal;
use sets::{Place, PlaceSet};
use std::io::{self, Stdout};
use trials::say;

pub fn refused(to: Stdout, refusal: Refusal) -> io::Result<()> {
    print!(to; "refused {}", refusal as u8)
}

fn kind(to: Stdout, k: Kind) -> io::Result<()> {
    match k {
        Kind::Full => say::text(to, b"full"),
        Kind::Short => say::text(to, b"short"),
    }
}

// The members of a set, in order.
fn members(to: Stdout, set: PlaceSet) -> io::Result<()> {
    for p in 0..128 {
        if places::contains(set, Place(p)) {
            print!(to; " {p}")?;
        }
    }
    Ok(())
}

pub fn reading(to: Stdout, got: Result<Record, Refusal>) -> io::Result<()> {
    match got {
        Err(fault) => refused(to, fault),
        Ok(record) => {
            let k = record.kind;
            let own = record.own;
            let mourned = record.mourned;
            kind(to, k)?;
            print!(to; ", place {} of {}", own.0, record.count)?;
            print!(to; ", roster at {}, mourned", record.roster)?;
            members(to, mourned)?;
            print!(to; ", next {}", record.next)
        }
    }
}

pub fn sight(to: Stdout, got: Result<Sight, Refusal>, roster: &[u8]) -> io::Result<()> {
    match got {
        Err(fault) => refused(to, fault)?,
        Ok(seen) => {
            kind(to, seen.kind)?;
            print!(to; ", own serial {}", seen.own.0)?;
        }
    }
    print!(to; ", part of {}", roster.len())?;
    scripts::say_runs(to, scripts::part(roster, 0, 32))
}

pub fn truth(to: Stdout, got: bool) -> io::Result<()> {
    if got {
        say::text(to, b"yes")
    } else {
        say::text(to, b"no")
    }
}
