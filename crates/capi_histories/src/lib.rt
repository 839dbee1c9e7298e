// Histories shown and checked, and a returned record written, as C asks them of a recovery. Nothing is kept between calls, and every input has an answer: include/goatmonth.h says what a caller
// promises of its pointers. What the words and numbers mean stands in `boundary`.
#![tactic(auto)]

ghost use Rattle.std.specs.Prelude.{◌≡◌, List, ℕ, length};
ghost use Rattle.refusals.specs.Numbers.{numbered};
ghost use Rattle.calls.specs.Promises.{shown, checked, written_of};
ghost use Rattle.boundary.specs.Words.{end_of};
ghost use Rattle.boundary.specs.Recoveries.{recovery_in, showing_code, checked_code};

use answers::Showing;
use boundary::End;
use refusals::Refusal;
use sets::Place;

fn showing_code(answer: Result<Showing, Refusal>) -> u8
    ensures { result ≡ showing_code answer }
{
    match answer {
        Ok(Showing::Shown) => 0,
        Ok(Showing::Decided) => 36,
        Err(fault) => fault as u8,
    }
}

// Checks a lent history: 13, 15, 37 fits, 38 fits not. Whatever the serials are.
#[unsafe(no_mangle)]
pub extern "C" fn gm_check(head: &[u64; 9], rows: &[u8; 2048], history: &[u8]) -> u8
    ensures { (serials seconds : List ℕ) → result ≡ checked_code (checked (recovery_in head.now serials seconds rows.now) history.now) }
{
    let h = words::read_head(head);
    let returned = h.returned;
    let full = h.full;
    let count = h.count;
    let n = standings::size(count);
    if history.len() < 16 * n {
        return 13;
    }
    if checks::off_roster(history, count) {
        return 15;
    }
    if checks::fits(rows, returned, full, count, history) {
        return 37;
    }
    38
}

// Shows two histories that fit and differ on a place: 12, 36 decided, 13, or 0 and both laid down. Whatever the serials are.
#[unsafe(no_mangle)]
pub extern "C" fn gm_show(
    head: &[u64; 9],
    rows: &[u8; 2048],
    place: usize,
    first: &mut [u8],
    second: &mut [u8],
) -> u8
    ensures by_index { (serials seconds : List ℕ) → result ≡ showing_code (shown (recovery_in head.now serials seconds rows.now) place first.old second.old).answer }
    ensures by_index_2 { (serials seconds : List ℕ) → first.new ≡ (shown (recovery_in head.now serials seconds rows.now) place first.old second.old).first }
    ensures by_index_3 { (serials seconds : List ℕ) → second.new ≡ (shown (recovery_in head.now serials seconds rows.now) place first.old second.old).second }
{
    let h = words::read_head(head);
    let returned = h.returned;
    let full = h.full;
    let mourned = h.mourned;
    let earlier = h.earlier;
    let count = h.count;
    let answer = shows::show(
        rows,
        returned,
        full,
        mourned,
        earlier,
        count,
        Place(place),
        first,
        second,
    );
    showing_code(answer)
}

// Writes the record of a returned place: 12, 14, 13, or where it ends.
fn write_back(
    head: &[u64; 9],
    serials: &[u32],
    rows: &[u8; 2048],
    place: Place,
    out: &mut [u8],
    at: usize,
) -> Result<usize, Refusal>
    requires { length serials.now ≡ 128 }
    ensures by_index { (seconds : List ℕ) → result ≡ (written_of (recovery_in head.now serials.now seconds rows.now) place.0 out.old at).answer }
    ensures by_index_2 { (seconds : List ℕ) → out.new ≡ (written_of (recovery_in head.now serials.now seconds rows.now) place.0 out.old at).buffer }
{
    let h = words::read_head(head);
    let returned = h.returned;
    let full = h.full;
    let n = standings::size(h.count);
    if n <= place.0 {
        return Err(Refusal::OffRoster);
    }
    if !places::contains(returned, place) {
        return Err(Refusal::NotAllowed);
    }
    let kind = standings::kind_of(full, place);
    let row = standings::recorded(rows, returned, h.count, place);
    writes::write(kind, place, &serials[..n], row, out, at)
}

// Writes the record of a returned place into a lent buffer from a position on: 12, 14, 13, or 0 and where it ends.
#[unsafe(no_mangle)]
pub extern "C" fn gm_write(
    head: &[u64; 9],
    serials: &[u32; 128],
    rows: &[u8; 2048],
    place: usize,
    out: &mut [u8],
    at: usize,
) -> End
    ensures by_index { (seconds : List ℕ) → result ≡ end_of (numbered (written_of (recovery_in head.now serials.now seconds rows.now) place out.old at).answer) }
    ensures by_index_2 { (seconds : List ℕ) → out.new ≡ (written_of (recovery_in head.now serials.now seconds rows.now) place out.old at).buffer }
{
    let answer = write_back(head, serials, rows, Place(place), out, at);
    words::end_of(answer.map_err(|refusal| refusal as u8))
}
