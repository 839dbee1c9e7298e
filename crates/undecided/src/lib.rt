// All open places at once, as one set.
#![tactic(auto)]

ghost use Rattle.std.specs.Prelude.{◌≡◌, not, cond, ◌&&◌, ◌||◌};
ghost use Rattle.sets.specs.Sets as sets;
ghost use Rattle.sets.specs.PlaceSets.{has};
ghost use Rattle.histories.specs.Rule as rule;
ghost use Rattle.histories.specs.Kept as kept;
ghost use Rattle.answers.specs.Views.{size, accepted_in, recorded_in, reach_from};

use answers::Walked;
use rows::Rows;
use sets::{Place, PlaceSet};

// A set, without a place unless that stays.
fn unless(stays: bool, s: PlaceSet, place: Place) -> PlaceSet
    ensures { has result ≡ cond stays (has s) (sets.without place.0 (has s)) }
{
    if stays {
        return s;
    }
    places::without(s, place)
}

// Those of some places besides which `rest` has another place: all but for its only one, or none if it is empty.
fn with_others(asked: PlaceSet, rest: PlaceSet) -> PlaceSet
    ensures { has result ≡ sets.intersection (has asked) (λ i. sets.any 128 (sets.without i (has rest))) }
{
    let found = places::lowest(rest);
    let Some(b) = found else {
        return places::empty();
    };
    let others = places::without(rest, b);
    if places::is_empty(others) {
        return places::without(asked, b);
    }
    asked
}

// Whether `known`, a row and what is before its members hold all of `rest` together; `seen` is all of these if they do not, else `known`.
// `known` holds the rows of its members, so they are not taken again.
fn known_with(
    known: PlaceSet,
    row: PlaceSet,
    rest: PlaceSet,
    rows: &Rows,
    returned: PlaceSet,
    count: usize,
) -> Walked
    ensures holds_value { result.holds ≡ sets.subset 128 (has rest) (reach_from (size count) (recorded_in count (sets.difference (has returned) (has known)) rows.now) (sets.union (has known) (has row))) }
    ensures seen_value { has result.seen ≡ cond result.holds (has known) (reach_from (size count) (recorded_in count (sets.difference (has returned) (has known)) rows.now) (sets.union (has known) (has row))) }
{
    let start = places::union(known, row);
    let others = places::difference(returned, known);
    let walked = chains::reached_until(rest, rows, others, count, start);
    if walked.holds {
        return Walked {
            holds: true,
            seen: known,
        };
    }
    walked
}

// Whether all of `rest` is in a row or before its members. Where that is ruled out already, or certain if it is possible, nothing is looked
// up.
fn all_before(
    possible: bool,
    certain: bool,
    row: PlaceSet,
    rest: PlaceSet,
    rows: &Rows,
    returned: PlaceSet,
    count: usize,
) -> bool
    ensures { result ≡ (possible && (certain || sets.subset 128 (has rest) (reach_from (size count) (recorded_in count (has returned) rows.now) (has row)))) }
{
    if !possible {
        return false;
    }
    if certain {
        return true;
    }
    let own = chains::reached_until(rest, rows, returned, count, row);
    own.holds
}

// Those of some places before which all of `rest` is. Each is looked up together with `known`, which is before those that were found not to
// be such and lacks some of `rest`, so that its rows are not taken again; only where both hold all of `rest` a place is looked up alone.
fn free_among(
    asked: PlaceSet,
    rest: PlaceSet,
    rows: &Rows,
    returned: PlaceSet,
    count: usize,
) -> PlaceSet
    ensures { has result ≡ sets.intersection (has asked) (λ p. sets.subset 128 (has rest) (rule.reach (size count) (recorded_in count (has returned) rows.now) p)) }
{
    let mut free = asked;
    let mut known = places::empty();
    for p in places::members(asked) {
        let row = standings::recorded(rows, returned, count, p);
        let walked = known_with(known, row, rest, rows, returned, count);
        let possible = walked.holds;
        let alone = places::is_empty(known);
        let is_free = all_before(possible, alone, row, rest, rows, returned, count);
        free = unless(is_free, free, p);
        known = walked.seen;
    }
    free
}

// The places of the roster that are open. One that is missing and not mourned blocks all others. Where all that are missing are mourned,
// only one that is back and short can be free of them: if they are all before it.
pub fn open_places(
    rows: &Rows,
    returned: PlaceSet,
    full: PlaceSet,
    mourned: PlaceSet,
    earlier: PlaceSet,
    count: usize,
) -> PlaceSet
    ensures { has result ≡ kept.open_by (size count) (accepted_in count (has returned) (has full) rows.now) (has mourned) (has earlier) }
{
    let asked = standings::unmourned(mourned, count);
    let missing = standings::unheard(returned, earlier, count);
    let open = with_others(asked, missing);
    let sure = places::difference(missing, mourned);
    if !places::is_empty(sure) {
        return open;
    }
    let back = places::intersection(open, returned);
    let short = places::difference(back, full);
    let free = free_among(short, missing, rows, returned, count);
    places::difference(open, free)
}
