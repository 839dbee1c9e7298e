// Who is before whom, by chains of recorded rows.
#![tactic(auto)]

ghost use Rattle.std.specs.Prelude.{◌≡◌, not};
ghost use Rattle.sets.specs.PlaceSets.{has};
ghost use Rattle.histories.specs.Rule as rule;
ghost use Rattle.answers.specs.Views.{size, recorded_in, reach_from, Sought};

use answers::Walked;
use rows::Rows;
use sets::{Place, PlaceSet};

// `from`, and all that is before its members: each returned place gives its row at most once.
pub fn reached(rows: &Rows, returned: PlaceSet, count: usize, from: PlaceSet) -> PlaceSet
    ensures { has result ≡ reach_from (size count) (recorded_in count (has returned) rows.now) (has from) }
{
    let all = standings::roster(count);
    let mut waiting = places::intersection(all, returned);
    let mut seen = from;
    loop {
        let next = places::intersection(seen, waiting);
        let found = places::lowest(next);
        let Some(p) = found else {
            return seen;
        };
        let row = standings::row_in(rows, all, p);
        seen = places::union(seen, row);
        waiting = places::without(waiting, p);
    }
}

// `from`, and what is before its members, until that holds all of `rest`; where it never does, all that is before them. `lacking` is what
// of `rest` was not met yet.
pub fn reached_until(
    rest: PlaceSet,
    rows: &Rows,
    returned: PlaceSet,
    count: usize,
    from: PlaceSet,
) -> Walked
    ensures { Sought (has rest) (reach_from (size count) (recorded_in count (has returned) rows.now) (has from)) result.holds (has result.seen) }
{
    let all = standings::roster(count);
    let mut untaken = places::intersection(all, returned);
    let mut lacking = places::difference(rest, from);
    let mut held = from;
    loop {
        if places::is_empty(lacking) {
            return Walked {
                holds: true,
                seen: held,
            };
        }
        let next = places::intersection(held, untaken);
        let found = places::lowest(next);
        let Some(p) = found else {
            return Walked {
                holds: false,
                seen: held,
            };
        };
        let row = standings::row_in(rows, all, p);
        held = places::union(held, row);
        lacking = places::difference(lacking, row);
        untaken = places::without(untaken, p);
    }
}

// All that is before a place.
pub fn before(rows: &Rows, returned: PlaceSet, count: usize, place: Place) -> PlaceSet
    ensures { has result ≡ rule.reach (size count) (recorded_in count (has returned) rows.now) place.0 }
{
    let row = standings::recorded(rows, returned, count, place);
    reached(rows, returned, count, row)
}
