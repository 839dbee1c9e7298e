// What a recovery lays into lent buffers: two histories, a returned record; and the check of a history that is lent.
#![tactic(auto)]

ghost use Rattle.std.specs.Prelude.{◌≡◌, ◌<◌};
ghost use Rattle.calls.specs.Promises.{shown, checked, written_of};

use answers::Showing;
use calls::Recovery;
use refusals::Refusal;
use sets::Place;

// Checks a lent history: 13, 15, or whether it fits.
pub fn check(r: Recovery, history: &[u8]) -> Result<bool, Refusal>
    ensures { result ≡ checked r history.now }
{
    let count = r.count;
    let returned = r.returned;
    let full = r.full;
    let n = standings::size(count);
    if history.len() < 16 * n {
        return Err(Refusal::TooShort);
    }
    if checks::off_roster(history, count) {
        return Err(Refusal::BitOffRoster);
    }
    Ok(checks::fits(&r.rows, returned, full, count, history))
}

// Writes the record of a returned place into a lent buffer from a position on: 12, 14, 13, or where it ends.
pub fn write(r: Recovery, place: Place, out: &mut [u8], at: usize) -> Result<usize, Refusal>
    ensures value { result ≡ (written_of r place.0 out.old at).answer }
    ensures out_after { out.new ≡ (written_of r place.0 out.old at).buffer }
{
    let count = r.count;
    let returned = r.returned;
    let full = r.full;
    let n = standings::size(count);
    if n <= place.0 {
        return Err(Refusal::OffRoster);
    }
    if !places::contains(returned, place) {
        return Err(Refusal::NotAllowed);
    }
    let kind = standings::kind_of(full, place);
    let row = standings::recorded(&r.rows, returned, count, place);
    let serials = r.serials;
    writes::write(kind, place, &serials[..n], row, out, at)
}

// Shows two histories that fit and differ on a place: 12, decided, 13, or both laid down.
pub fn show(
    r: Recovery,
    place: Place,
    first: &mut [u8],
    second: &mut [u8],
) -> Result<Showing, Refusal>
    ensures value { result ≡ (shown r place.0 first.old second.old).answer }
    ensures first_after { first.new ≡ (shown r place.0 first.old second.old).first }
    ensures second_after { second.new ≡ (shown r place.0 first.old second.old).second }
{
    let returned = r.returned;
    let full = r.full;
    let mourned = r.mourned;
    let earlier = r.earlier;
    shows::show(
        &r.rows, returned, full, mourned, earlier, r.count, place, first, second,
    )
}
