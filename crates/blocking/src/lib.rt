// The answer for a place: its blockers, and whether any place has one.
#![tactic(auto)]

ghost use Rattle.std.specs.Prelude.{◌≡◌, not, cond, ◌&&◌};
ghost use Rattle.sets.specs.Sets as sets;
ghost use Rattle.sets.specs.PlaceSets.{has};
ghost use Rattle.histories.specs.Rule as rule;
ghost use Rattle.histories.specs.Kept as kept;
ghost use Rattle.answers.specs.Views.{size, accepted_in, recorded_in, answer_of};

use answers::Answer;
use rows::Rows;
use sets::{Place, PlaceSet};

// The same, but for one place.
fn unheard_others(returned: PlaceSet, earlier: PlaceSet, count: usize, place: Place) -> PlaceSet
    ensures { has result ≡ sets.without place.0 (sets.difference (sets.difference (sets.below (size count)) (has returned)) (has earlier)) }
{
    let rest = standings::unheard(returned, earlier, count);
    places::without(rest, place)
}

// What is left of some places without the mourned ones before `place`; no others are before it. Where that is back and full they are
// known to be left out already.
fn narrowed(
    rest: PlaceSet,
    rows: &Rows,
    returned: PlaceSet,
    full: PlaceSet,
    mourned: PlaceSet,
    count: usize,
    place: Place,
) -> PlaceSet
    ensures { has result ≡ sets.difference (has rest) (cond (sets.intersection (sets.below (size count)) (has returned) place.0 && has full place.0) sets.nothing (sets.intersection (has mourned) (rule.reach (size count) (recorded_in count (has returned) rows.now) place.0))) }
{
    if standings::full_back(returned, full, count, place) {
        return rest;
    }
    let own = chains::before(rows, returned, count, place);
    let heard = places::intersection(mourned, own);
    places::difference(rest, heard)
}

// The blockers of a place.
pub fn blockers(
    rows: &Rows,
    returned: PlaceSet,
    full: PlaceSet,
    mourned: PlaceSet,
    earlier: PlaceSet,
    count: usize,
    place: Place,
) -> PlaceSet
    ensures { has result ≡ kept.blockers_by (size count) (accepted_in count (has returned) (has full) rows.now) (has mourned) (has earlier) place.0 }
{
    let rest = unheard_others(returned, earlier, count, place);
    narrowed(rest, rows, returned, full, mourned, count, place)
}

// Whether a place has a blocker. Where nobody is missing, or where another is missing that is not mourned and so not before it, nothing is
// looked up.
fn blocked(
    rows: &Rows,
    returned: PlaceSet,
    full: PlaceSet,
    mourned: PlaceSet,
    earlier: PlaceSet,
    count: usize,
    place: Place,
) -> bool
    ensures { result ≡ sets.any (size count) (kept.blockers_by (size count) (accepted_in count (has returned) (has full) rows.now) (has mourned) (has earlier) place.0) }
{
    let missing = standings::unheard(returned, earlier, count);
    if places::is_empty(missing) {
        return false;
    }
    let rest = places::without(missing, place);
    let sure = places::difference(rest, mourned);
    if !places::is_empty(sure) {
        return true;
    }
    let left = narrowed(rest, rows, returned, full, mourned, count, place);
    !places::is_empty(left)
}

// The answer for a place.
pub fn answer_for(
    rows: &Rows,
    returned: PlaceSet,
    full: PlaceSet,
    mourned: PlaceSet,
    earlier: PlaceSet,
    count: usize,
    place: Place,
) -> Answer
    ensures { result ≡ answer_of (kept.answer_by (size count) (accepted_in count (has returned) (has full) rows.now) (has mourned) (has earlier) place.0) }
{
    if places::contains(mourned, place) {
        return Answer::NotLast;
    }
    if blocked(rows, returned, full, mourned, earlier, count, place) {
        return Answer::Open;
    }
    Answer::Last
}

// Whether no place of the roster is open.
pub fn settled(
    rows: &Rows,
    returned: PlaceSet,
    full: PlaceSet,
    mourned: PlaceSet,
    earlier: PlaceSet,
    count: usize,
) -> bool
    ensures { result ≡ kept.settled_by (size count) (accepted_in count (has returned) (has full) rows.now) (has mourned) (has earlier) }
{
    let unasked = standings::unmourned(mourned, count);
    places::members(unasked).all(|p| !blocked(rows, returned, full, mourned, earlier, count, p))
}
