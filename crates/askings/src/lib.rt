// What a recovery answers of its places: one, all in a list, the whole, what to fetch, the unmourned ones.
#![tactic(auto)]

ghost use Rattle.std.specs.Prelude.{◌≡◌, ◌<◌};
ghost use Rattle.sets.specs.PlaceSets.{has};
ghost use Rattle.calls.specs.Promises.{asked, settled_of, fetching_of, unmourned_of, unmourned_absent_of, unmourned_count_of, listed_of};

use answers::{Answer, Fetching};
use calls::Recovery;
use refusals::Refusal;
use sets::{Place, PlaceSet};

// Asks for a place: 12, or the answer.
pub fn ask(r: Recovery, place: Place) -> Result<Answer, Refusal>
    ensures { result ≡ asked r place.0 }
{
    let count = r.count;
    let returned = r.returned;
    let full = r.full;
    let mourned = r.mourned;
    let earlier = r.earlier;
    let n = standings::size(count);
    if n <= place.0 {
        return Err(Refusal::OffRoster);
    }
    Ok(blocking::answer_for(&r.rows, returned, full, mourned, earlier, count, place))
}

// Lists the answers of all places into a lent buffer, a byte each, as asking for them one by one would give: 13, or laid down.
pub fn list(r: Recovery, out: &mut [u8]) -> Result<(), Refusal>
    ensures value { result ≡ (listed_of r out.old).answer }
    ensures out_after { out.new ≡ (listed_of r out.old).buffer }
{
    let returned = r.returned;
    let full = r.full;
    let mourned = r.mourned;
    let earlier = r.earlier;
    lists::list(&r.rows, returned, full, mourned, earlier, r.count, out)
}

// Whether no place is open.
#[inline(always)]
pub fn settled(r: Recovery) -> bool
    ensures { result ≡ settled_of r }
{
    let returned = r.returned;
    let full = r.full;
    let mourned = r.mourned;
    let earlier = r.earlier;
    blocking::settled(&r.rows, returned, full, mourned, earlier, r.count)
}

// How many fetches surely suffice until no place is open, and the place to fetch next; or that none is open.
#[inline(always)]
pub fn to_fetch(r: Recovery) -> Option<Fetching>
    ensures { result ≡ fetching_of r }
{
    let returned = r.returned;
    let full = r.full;
    let mourned = r.mourned;
    let earlier = r.earlier;
    fetches::to_fetch(&r.rows, returned, full, mourned, earlier, r.count)
}

// The unmourned places.
pub fn unmourned(r: Recovery) -> PlaceSet
    ensures { has result ≡ unmourned_of r }
{
    standings::unmourned(r.mourned, r.count)
}

// The unmourned places that are absent.
pub fn unmourned_absent(r: Recovery) -> PlaceSet
    ensures { has result ≡ unmourned_absent_of r }
{
    let returned = r.returned;
    let all = unmourned(r);
    places::difference(all, returned)
}

// How many are unmourned.
pub fn unmourned_count(r: Recovery) -> usize
    ensures { result ≡ unmourned_count_of r }
{
    let all = unmourned(r);
    places::count(all)
}
