// The game of document 02, [6], played out on a small roster: a crew fetches an absent place, the hill hands over a record of it that is not
// refused, and so on until the whole is settled. The crew looks for the fewest fetches, the hill for the most.
#![tactic(auto)]

ghost use Rattle.std.specs.Prelude.{◌≡◌, true, ◌-◌, ◌≤◌, ◌<◌};
ghost use Rattle.sets.specs.PlaceSets.{has};
ghost use Rattle.calls.specs.Promises.{size_of};
ghost use Rattle.games.specs.Games as games;
ghost use Rattle.games.specs.Games.{absent_of, absent_count, kind_numbered, handed, hills_turn, crews_turn, played};

use answers::Reply;
use calls::{Offered, Recovery};
use histories::Kind;
use refusals::Refusal;
use sets::{Place, PlaceSet};

// The absent places.
fn absent(r: Recovery) -> PlaceSet
    ensures { has result ≡ absent_of r }
{
    let returned = r.returned;
    let n = standings::size(r.count);
    let all = places::below(n);
    places::difference(all, returned)
}

// The kind of a record by its number.
fn kind_numbered(number: u64) -> Kind
    ensures { result ≡ kind_numbered number }
{
    if number % 2 == 0 {
        return Kind::Full;
    }
    Kind::Short
}

// Hands over the record of a place with this number: it is written, into 39 bytes, which every record of four members fits, and offered.
fn hand_over(r: Recovery, place: Place, number: u64) -> Offered
    requires r_bound { size_of r ≤ 4 }
    requires place_bound { place.0 < size_of r }
    ensures { result ≡ handed r place.0 number }
{
    let n = standings::size(r.count);
    let serials = r.serials;
    let kind = kind_numbered(number);
    let mourned = PlaceSet {
        low: number / 2,
        high: 0,
    };
    let mut bytes = [0u8; 39];
    let done = writes::write(kind, place, &serials[..n], mourned, &mut bytes, 0);
    let Ok(end) = done else {
        return Offered {
            answer: Err(Refusal::TooShort),
            recovery: r,
        };
    };
    offerings::offer(r, &bytes[..end])
}

// Whether a record was taken.
fn is_taken(reply: Result<Reply, Refusal>) -> bool
    ensures { result ≡ games.is_taken reply }
{
    match reply {
        Ok(Reply::Taken) => true,
        Ok(Reply::Repeated) => false,
        Err(_) => false,
    }
}

// The crew's turn: the fewest fetches that it can be done in, whatever the hill does.
#[cycle(crew_hill)]
fn crew(r: Recovery) -> usize
    requires { size_of r ≤ 4 }
    ensures { result ≡ crews_turn (absent_count r) r }
{
    if askings::settled(r) {
        return 0;
    }
    let mut members = places::members(absent(r));
    let Some(first) = members.next() else {
        return 0;
    };
    let mut best = hill(r, first);
    for p in members {
        let lasts = hill(r, p);
        best = best.min(lasts);
    }
    best + 1
}

// The hill's turn after a fetch: the most fetches that it can still cost the crew, over all records of the place that are not refused.
#[cycle(crew_hill)]
fn hill(r: Recovery, place: Place) -> usize
    requires r_bound { size_of r ≤ 4 }
    requires place_value { absent_of r place.0 ≡ true }
    ensures { result ≡ hills_turn (crews_turn (absent_count r - 1)) r place.0 }
{
    let n = standings::size(r.count);
    let numbers = 2u64 << n;
    let mut most = 0usize;
    for number in 0..numbers {
        let got = hand_over(r, place, number);
        let answer = got.answer;
        if is_taken(answer) {
            let lasts = crew(got.recovery);
            most = most.max(lasts);
        }
    }
    most
}

// Plays the game out: 17 for a roster of more than four, or how many fetches it lasts where both play as well as can be.
pub fn play(r: Recovery) -> Result<usize, Refusal>
    ensures { result ≡ played r }
{
    let n = standings::size(r.count);
    if 4 < n {
        return Err(Refusal::TooMany);
    }
    Ok(crew(r))
}
