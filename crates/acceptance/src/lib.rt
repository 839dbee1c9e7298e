// The test for 11: whether some history fits the accepted records and a new one.
#![tactic(auto)]

ghost use Rattle.std.specs.Prelude.{◌≡◌, not, ◌||◌};
ghost use Rattle.sets.specs.Sets as sets;
ghost use Rattle.sets.specs.PlaceSets.{has};
ghost use Rattle.histories.specs.Rule as rule;
ghost use Rattle.answers.specs.Views.{size, accepted_in};

use histories::Kind;
use rows::Rows;
use sets::{Place, PlaceSet};

// Whether a row that names a place holds some others.
fn agrees(row: PlaceSet, place: Place, known: PlaceSet) -> bool
    ensures { result ≡ (not (has row place.0) || sets.subset 128 (has known) (has row)) }
{
    if places::contains(row, place) {
        return places::is_subset(known, row);
    }
    true
}

// Whether each row of a returned full place that names `place` holds those before it.
fn all_agree(
    rows: &Rows,
    returned: PlaceSet,
    full: PlaceSet,
    count: usize,
    place: Place,
    preceding: PlaceSet,
) -> bool
    ensures { result ≡ sets.all (size count) (rule.agrees (size count) (accepted_in count (has returned) (has full) rows.now) place.0 (has preceding)) }
{
    let all = standings::roster(count);
    let known = places::intersection(all, preceding);
    let back = places::intersection(all, returned);
    let asked = places::intersection(back, full);
    places::members(asked).all(|p| agrees(standings::row_in(rows, all, p), place, known))
}

// Whether a full record names all that are before it; a short one need not.
fn names_all(kind: Kind, count: usize, row: PlaceSet, preceding: PlaceSet) -> bool
    ensures { result ≡ (not (rule.is_full kind) || sets.subset (size count) (has preceding) (has row)) }
{
    match kind {
        Kind::Full => {
            let all = standings::roster(count);
            let known = places::intersection(all, preceding);
            places::is_subset(known, row)
        }
        Kind::Short => true,
    }
}

// Whether the record of a place that is not back, of this kind and with this row, may be taken: the test for 11. A chain that passes the
// place twice has a shorter one, so the place's own row is left out of the walk.
pub fn accepts(
    kind: Kind,
    rows: &Rows,
    returned: PlaceSet,
    full: PlaceSet,
    count: usize,
    place: Place,
    row: PlaceSet,
) -> bool
    ensures { result ≡ rule.accepts (size count) (accepted_in count (has returned) (has full) rows.now) place.0 kind (has row) }
{
    let others = places::without(returned, place);
    let preceding = chains::reached(rows, others, count, row);
    if places::contains(preceding, place) {
        return false;
    }
    if !names_all(kind, count, row, preceding) {
        return false;
    }
    all_agree(rows, returned, full, count, place, preceding)
}
