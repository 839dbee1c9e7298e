// How the places of a roster stand, by the parts of a recovery: their rows and kinds, and who may still have heard others. A count above 128
// counts as 128.
#![tactic(auto)]

ghost use Rattle.std.specs.Prelude.{◌≡◌, not, ◌&&◌, ◌≤◌};
ghost use Rattle.sets.specs.Sets as sets;
ghost use Rattle.sets.specs.PlaceSets.{has};
ghost use Rattle.rows.specs.Rows.{rows_of};
ghost use Rattle.answers.specs.Views.{size, kind_in, recorded_in};

use histories::Kind;
use rows::Rows;
use sets::{Place, PlaceSet};

// The roster's length: a count above 128 counts as 128.
pub fn size(count: usize) -> usize
    ensures value { result ≡ size count }
    ensures upper_bound { result ≤ 128 }
{
    if count <= 128 {
        return count;
    }
    128
}

// The places of the roster.
pub fn roster(count: usize) -> PlaceSet
    ensures { has result ≡ sets.below (size count) }
{
    places::below(count)
}

// The row of a place as far as the roster goes.
pub fn row_in(rows: &Rows, all: PlaceSet, place: Place) -> PlaceSet
    ensures { has result ≡ sets.intersection (has all) (rows_of rows.now place.0) }
{
    let row = row_tables::get(rows, place);
    places::intersection(all, row)
}

// The recorded row of a place, empty where it is not back.
pub fn recorded(rows: &Rows, returned: PlaceSet, count: usize, place: Place) -> PlaceSet
    ensures { has result ≡ recorded_in count (has returned) rows.now place.0 }
{
    let all = roster(count);
    let back = places::intersection(all, returned);
    if places::contains(back, place) {
        return row_in(rows, all, place);
    }
    places::empty()
}

// The kind of a place, by the places of the full kind.
pub fn kind_of(full: PlaceSet, place: Place) -> Kind
    ensures { result ≡ kind_in (has full) place.0 }
{
    if places::contains(full, place) {
        return Kind::Full;
    }
    Kind::Short
}

// The places of the roster that are neither back nor before a returned full one: no others block.
pub fn unheard(returned: PlaceSet, earlier: PlaceSet, count: usize) -> PlaceSet
    ensures { has result ≡ sets.difference (sets.difference (sets.below (size count)) (has returned)) (has earlier) }
{
    let all = roster(count);
    let absent = places::difference(all, returned);
    places::difference(absent, earlier)
}

// The places of the roster that are not mourned.
pub fn unmourned(mourned: PlaceSet, count: usize) -> PlaceSet
    ensures { has result ≡ sets.difference (sets.below (size count)) (has mourned) }
{
    let all = roster(count);
    places::difference(all, mourned)
}

// Whether a place is back and full.
pub fn full_back(returned: PlaceSet, full: PlaceSet, count: usize, place: Place) -> bool
    ensures { result ≡ (sets.intersection (sets.below (size count)) (has returned) place.0 && has full place.0) }
{
    let all = roster(count);
    let back = places::intersection(all, returned);
    let both = places::intersection(back, full);
    places::contains(both, place)
}
