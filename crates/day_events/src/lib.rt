// One event of a day: a stop or a hearing, allowed or refused. A day goes in by value and comes back by value.
#![tactic(auto)]

ghost use Rattle.std.specs.Prelude.{◌≡◌};
ghost use Rattle.sets.specs.Sets as sets;
ghost use Rattle.sets.specs.PlaceSets.{has};
ghost use Rattle.rows.specs.Rows.{rows_of, table_of};
ghost use Rattle.answers.specs.Views.{size};
ghost use Rattle.executions.specs.Executions.{stop_fault, hear_fault, listeners, noting};
ghost use Rattle.executions.specs.Executions as executions;
ghost use Rattle.executions.specs.Parts.{stops_of};
ghost use Rattle.executions.specs.Promises as contracts;
ghost use Rattle.executions.specs.Promises.{day_after, happened};

use executions::{Day, Event, Happened};
use histories::Kind;
use refusals::Refusal;
use rows::Rows;
use sets::{Place, PlaceSet};

// Whether a stop is allowed: 12 off the roster, 14 where the place runs no more.
fn stop_fault(n: usize, stopped: PlaceSet, place: Place) -> Result<(), Refusal>
    ensures { result ≡ stop_fault n (stops_of n (has stopped)) place.0 }
{
    if n <= place.0 {
        return Err(Refusal::OffRoster);
    }
    if places::contains(stopped, place) {
        return Err(Refusal::NotAllowed);
    }
    Ok(())
}

// Whether a hearing is allowed: 12 where either place is off the roster, 14 unless the one runs and the other does not.
fn hear_fault(n: usize, stopped: PlaceSet, place: Place, other: Place) -> Result<(), Refusal>
    ensures { result ≡ hear_fault n (stops_of n (has stopped)) place.0 other.0 }
{
    if n <= place.0 {
        return Err(Refusal::OffRoster);
    }
    if n <= other.0 {
        return Err(Refusal::OffRoster);
    }
    if places::contains(stopped, place) {
        return Err(Refusal::NotAllowed);
    }
    if places::contains(stopped, other) {
        return Ok(());
    }
    Err(Refusal::NotAllowed)
}

// Whether an event is allowed, or the refusal that it meets.
fn fault(n: usize, stopped: PlaceSet, e: Event) -> Result<(), Refusal>
    ensures { result ≡ executions.fault n (stops_of n (has stopped)) e }
{
    let kind = e.kind;
    let place = e.place;
    let other = e.other;
    match kind {
        1 => stop_fault(n, stopped, place),
        2 => hear_fault(n, stopped, place, other),
        0 | 3..=255 => Err(Refusal::NotAllowed),
    }
}

// The day after a place has stopped.
fn stopping(d: Day, place: Place) -> Day
    ensures { result ≡ contracts.stopping d place.0 }
{
    let mut next = d;
    let stopped = next.stopped;
    next.stopped = places::with(stopped, place);
    next
}

// One place notes another.
fn note(rows: &mut Rows, place: Place, other: Place)
    requires { table_of (rows_of rows.old) ≡ rows.old }
    ensures { rows.new ≡ table_of (noting (sets.only place.0) other.0 (rows_of rows.old)) }
{
    let row = row_tables::get(rows, place);
    row_tables::set(rows, place, places::with(row, other));
}

// The same, unless the place has stopped.
fn note_unless(rows: &mut Rows, stopped: PlaceSet, place: Place, other: Place)
    requires { table_of (rows_of rows.old) ≡ rows.old }
    ensures { rows.new ≡ table_of (noting (sets.difference (sets.only place.0) (has stopped)) other.0 (rows_of rows.old)) }
{
    if places::contains(stopped, place) {
        return;
    }
    note(rows, place, other);
}

// Every place below n that runs notes another.
fn note_running(rows: &mut Rows, n: usize, stopped: PlaceSet, other: Place)
    requires { table_of (rows_of rows.old) ≡ rows.old }
    ensures { rows.new ≡ table_of (noting (sets.difference (sets.below n) (has stopped)) other.0 (rows_of rows.old)) }
{
    for i in 0..n {
        note_unless(rows, stopped, Place(i), other);
    }
}

// Those who listen to a place note what it has heard.
fn note_heard(rows: &mut Rows, kind: Kind, n: usize, stopped: PlaceSet, place: Place, other: Place)
    requires { table_of (rows_of rows.old) ≡ rows.old }
    ensures { rows.new ≡ table_of (noting (listeners kind n (stops_of n (has stopped)) place.0) other.0 (rows_of rows.old)) }
{
    match kind {
        Kind::Full => note_running(rows, n, stopped, other),
        Kind::Short => note(rows, place, other),
    }
}

// The day after a place has heard that another has stopped.
fn hearing(d: Day, place: Place, other: Place) -> Day
    ensures { result ≡ contracts.hearing d place.0 other.0 }
{
    let mut next = d;
    let kind = next.kind;
    let stopped = next.stopped;
    let n = standings::size(next.count);
    note_heard(&mut next.rows, kind, n, stopped, place, other);
    next
}

// The day after an event that is allowed.
fn day_after(d: Day, e: Event) -> Day
    ensures { result ≡ day_after d e }
{
    if e.kind == 1 {
        return stopping(d, e.place);
    }
    hearing(d, e.place, e.other)
}

// One event: 12, 14, or the day after it.
pub fn happen(d: Day, e: Event) -> Happened
    ensures { result ≡ happened d e }
{
    let stopped = d.stopped;
    let n = standings::size(d.count);
    match fault(n, stopped, e) {
        Ok(()) => Happened {
            answer: Ok(()),
            day: day_after(d, e),
        },
        Err(refusal) => Happened {
            answer: Err(refusal),
            day: d,
        },
    }
}
