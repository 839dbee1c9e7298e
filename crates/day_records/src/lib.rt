// A day opened from a kind and a list of serials, and the records of those that have stopped.
#![tactic(auto)]

ghost use Rattle.std.specs.Prelude.{◌≡◌, ◌≤◌, length};
ghost use Rattle.sets.specs.Sets as sets;
ghost use Rattle.sets.specs.PlaceSets.{has};
ghost use Rattle.serials.specs.Rosters.{listed};
ghost use Rattle.rows.specs.Rows.{rows_of};
ghost use Rattle.answers.specs.Views.{size};
ghost use Rattle.executions.specs.Promises as contracts;
ghost use Rattle.executions.specs.Promises.{begun, begun_as, written_of};

use executions::{Begun, Day};
use histories::Kind;
use refusals::Refusal;
use rows::Rows;
use sets::{Place, PlaceSet};

// A day with this roster, and all run.
fn starting(kind: Kind, list: &[u32]) -> Day
    requires { length list.now ≤ 128 }
    ensures { result ≡ contracts.starting kind list.now }
{
    let serials = rosters::padded(list);
    let stopped = places::empty();
    let rows = row_tables::none();
    Day {
        kind,
        count: list.len(),
        serials,
        stopped,
        rows,
    }
}

// A refused opening: a day of no places.
fn unbegun(fault: Refusal) -> Begun
    ensures { result ≡ contracts.unbegun fault }
{
    let day = starting(Kind::Full, &[]);
    Begun {
        answer: Err(fault),
        day,
    }
}

// Opening with a known kind: 3, 4, 5, or opened.
fn open_as(kind: Kind, list: &[u32]) -> Begun
    ensures { result ≡ begun_as kind list.now (listed list.now) }
{
    match rosters::check(list) {
        Ok(()) => {
            let day = starting(kind, list);
            Begun {
                answer: Ok(()),
                day,
            }
        }
        Err(fault) => unbegun(fault),
    }
}

// Opens a day from a kind byte and a list of serials: 2, 3, 4, 5, or opened.
pub fn open(kind: u8, list: &[u32]) -> Begun
    ensures { result ≡ begun kind list.now }
{
    match kind {
        1 => open_as(Kind::Full, list),
        2 => open_as(Kind::Short, list),
        0 | 3..=255 => unbegun(Refusal::UnknownKind),
    }
}

// What a place has heard, as far as the roster goes.
fn heard(rows: &Rows, count: usize, place: Place) -> PlaceSet
    ensures { has result ≡ sets.intersection (sets.below (size count)) (rows_of rows.now place.0) }
{
    let all = places::below(count);
    let row = row_tables::get(rows, place);
    places::intersection(all, row)
}

// Writes the record of a place into the buffer from a position on: 12, 14 while it runs, 13, or where the record ends.
pub fn write(d: Day, place: Place, out: &mut [u8], at: usize) -> Result<usize, Refusal>
    ensures value { result ≡ (written_of d place.0 out.old at).answer }
    ensures out_after { out.new ≡ (written_of d place.0 out.old at).buffer }
{
    let kind = d.kind;
    let stopped = d.stopped;
    let count = d.count;
    let n = standings::size(count);
    if n <= place.0 {
        return Err(Refusal::OffRoster);
    }
    if !places::contains(stopped, place) {
        return Err(Refusal::NotAllowed);
    }
    let mourned = heard(&d.rows, count, place);
    let serials = d.serials;
    writes::write(kind, place, &serials[..n], mourned, out, at)
}
