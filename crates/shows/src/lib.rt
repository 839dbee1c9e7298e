// Showing two histories that fit and differ on a place, by the parts of a recovery: no copy of the whole is needed.
#![tactic(auto)]

ghost use Rattle.std.specs.Prelude.{◌≡◌, ◌*◌, ◌<◌};
ghost use Rattle.sets.specs.Sets as sets;
ghost use Rattle.sets.specs.PlaceSets.{has, kept};
ghost use Rattle.histories.specs.Rule as rule;
ghost use Rattle.rows.specs.Rows.{rows_of};
ghost use Rattle.histories.specs.Kept as keeping;
ghost use Rattle.answers.specs.Views.{size, accepted_in, recorded_in};
ghost use Rattle.answers.specs.Shows.{laid_in, shown_in};

use answers::Showing;
use refusals::Refusal;
use rows::Rows;
use sets::{Place, PlaceSet};

// What one that heard a place has in its row: the place, and all that is before it.
fn heard_row(rows: &Rows, returned: PlaceSet, count: usize, place: Place) -> PlaceSet
    ensures { has result ≡ kept (sets.with place.0 (rule.reach (size count) (recorded_in count (has returned) rows.now) place.0)) }
{
    let own = chains::before(rows, returned, count, place);
    places::with(own, place)
}

// Lays the first n rows into the front of both buffers. The copy is known to overlap neither buffer, so that each is one copy of memory.
fn lay_copied(rows: &Rows, n: usize, first: &mut [u8], second: &mut [u8])
    ensures first_after { first.new ≡ laid_in n (rows_of rows.now) first.old }
    ensures second_after { second.new ≡ laid_in n (rows_of rows.now) second.old }
{
    let table = *rows;
    row_tables::lay(first, &table, n);
    row_tables::lay(second, &table, n);
}

// The same; few rows are laid without a copy of them all.
fn lay_both(rows: &Rows, n: usize, first: &mut [u8], second: &mut [u8])
    ensures first_after { first.new ≡ laid_in n (rows_of rows.now) first.old }
    ensures second_after { second.new ≡ laid_in n (rows_of rows.now) second.old }
{
    if 96 < n {
        lay_copied(rows, n, first, second);
        return;
    }
    row_tables::lay(first, rows, n);
    row_tables::lay(second, rows, n);
}

// Shows a place that is open: 13, or both histories laid down, the second with another row for the lowest blocker.
fn show_open(
    rows: &Rows,
    returned: PlaceSet,
    full: PlaceSet,
    mourned: PlaceSet,
    earlier: PlaceSet,
    count: usize,
    place: Place,
    blocker: Place,
    first: &mut [u8],
    second: &mut [u8],
) -> Result<Showing, Refusal>
    requires place_bound { (place.0 < size count) × (keeping.answer_by (size count) (accepted_in count (has returned) (has full) rows.now) (has mourned) (has earlier) place.0 ≡ rule.is_open) }
    requires blocker_value { blocker.0 ≡ sets.lowest (size count) (keeping.blockers_by (size count) (accepted_in count (has returned) (has full) rows.now) (has mourned) (has earlier) place.0) }
    ensures value { result ≡ (shown_in (size count) (accepted_in count (has returned) (has full) rows.now) (has mourned) (has earlier) (rows_of rows.now) place.0 first.old second.old).answer }
    ensures first_after { first.new ≡ (shown_in (size count) (accepted_in count (has returned) (has full) rows.now) (has mourned) (has earlier) (rows_of rows.now) place.0 first.old second.old).first }
    ensures second_after { second.new ≡ (shown_in (size count) (accepted_in count (has returned) (has full) rows.now) (has mourned) (has earlier) (rows_of rows.now) place.0 first.old second.old).second }
{
    let n = standings::size(count);
    if first.len() < 16 * n {
        return Err(Refusal::TooShort);
    }
    if second.len() < 16 * n {
        return Err(Refusal::TooShort);
    }
    let heard = heard_row(rows, returned, count, place);
    lay_both(rows, n, first, second);
    row_bytes::put(second, 16 * blocker.0, heard);
    Ok(Showing::Shown)
}

// Shows two histories that fit and differ on a place: 12, decided, 13, or both laid down.
pub fn show(
    rows: &Rows,
    returned: PlaceSet,
    full: PlaceSet,
    mourned: PlaceSet,
    earlier: PlaceSet,
    count: usize,
    place: Place,
    first: &mut [u8],
    second: &mut [u8],
) -> Result<Showing, Refusal>
    ensures value { result ≡ (shown_in (size count) (accepted_in count (has returned) (has full) rows.now) (has mourned) (has earlier) (rows_of rows.now) place.0 first.old second.old).answer }
    ensures first_after { first.new ≡ (shown_in (size count) (accepted_in count (has returned) (has full) rows.now) (has mourned) (has earlier) (rows_of rows.now) place.0 first.old second.old).first }
    ensures second_after { second.new ≡ (shown_in (size count) (accepted_in count (has returned) (has full) rows.now) (has mourned) (has earlier) (rows_of rows.now) place.0 first.old second.old).second }
{
    if standings::size(count) <= place.0 {
        return Err(Refusal::OffRoster);
    }
    if places::contains(mourned, place) {
        return Ok(Showing::Decided);
    }
    let blocking = blocking::blockers(rows, returned, full, mourned, earlier, count, place);
    let found = places::lowest(blocking);
    let Some(blocker) = found else {
        return Ok(Showing::Decided);
    };
    show_open(
        rows, returned, full, mourned, earlier, count, place, blocker, first, second,
    )
}
