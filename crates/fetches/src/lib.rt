// How many places a crew has to fetch at most until the whole is settled, and which place next, by the parts of a recovery: no copy of the
// whole is needed.
#![tactic(auto)]

ghost use Rattle.std.specs.Prelude.{◌≡◌};
ghost use Rattle.sets.specs.PlaceSets.{has};
ghost use Rattle.answers.specs.Views.{size, accepted_in};
ghost use Rattle.answers.specs.Fetches.{blocking_by, fetching_by};

use answers::Fetching;
use rows::Rows;
use sets::PlaceSet;

// The places that block some unmourned place. No more are looked for once all that are missing are among them.
fn blocking(
    rows: &Rows,
    returned: PlaceSet,
    full: PlaceSet,
    mourned: PlaceSet,
    earlier: PlaceSet,
    count: usize,
) -> PlaceSet
    ensures { has result ≡ blocking_by (size count) (accepted_in count (has returned) (has full) rows.now) (has mourned) (has earlier) }
{
    let missing = standings::unheard(returned, earlier, count);
    let unasked = standings::unmourned(mourned, count);
    let mut known = places::empty();
    // where nobody is missing, no member is looked for
    if places::is_subset(missing, known) {
        return known;
    }
    for p in places::members(unasked) {
        if places::is_subset(missing, known) {
            return known;
        }
        let own = blocking::blockers(rows, returned, full, mourned, earlier, count, p);
        known = places::union(known, own);
    }
    known
}

// How many fetches surely suffice, and the place to fetch next; or that nothing is open.
pub fn to_fetch(
    rows: &Rows,
    returned: PlaceSet,
    full: PlaceSet,
    mourned: PlaceSet,
    earlier: PlaceSet,
    count: usize,
) -> Option<Fetching>
    ensures { result ≡ fetching_by (size count) (accepted_in count (has returned) (has full) rows.now) (has mourned) (has earlier) }
{
    let known = blocking(rows, returned, full, mourned, earlier, count);
    let next = places::lowest(known)?;
    Some(Fetching {
        number: places::count(known),
        next,
    })
}
