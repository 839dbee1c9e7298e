// What a recovery answers of its places, as C asks it. Nothing is kept between calls, and every input has an answer: include/goatmonth.h says what a caller
// promises of its pointers. What the words and numbers mean stands in `boundary`.
#![tactic(auto)]

ghost use Rattle.std.specs.Prelude.{◌≡◌, List, ℕ};
ghost use Rattle.calls.specs.Promises.{asked, settled_of, unmourned_of, unmourned_absent_of, unmourned_count_of, listed_of};
ghost use Rattle.boundary.specs.Words.{yes_code};
ghost use Rattle.boundary.specs.Recoveries.{recovery_in, asked_code, listing_code, words_of};

use answers::Answer;
use refusals::Refusal;
use sets::Place;

// The number of an answer to listing.
fn listing_code(answer: Result<(), Refusal>) -> u8
    ensures { result ≡ listing_code answer }
{
    match answer {
        Ok(()) => 0,
        Err(fault) => fault as u8,
    }
}

// Asks for a place: 12, 33 last, 34 not last, 35 open. Whatever the serials are.
#[unsafe(no_mangle)]
pub extern "C" fn gm_ask(head: &[u64; 9], rows: &[u8; 2048], place: usize) -> u8
    ensures { (serials seconds : List ℕ) → result ≡ asked_code (asked (recovery_in head.now serials seconds rows.now) place) }
{
    let h = words::read_head(head);
    let returned = h.returned;
    let full = h.full;
    let mourned = h.mourned;
    let earlier = h.earlier;
    let count = h.count;
    let n = standings::size(count);
    if n <= place {
        return 12;
    }
    let answer = blocking::answer_for(rows, returned, full, mourned, earlier, count, Place(place));
    match answer {
        Answer::Last => 33,
        Answer::NotLast => 34,
        Answer::Open => 35,
    }
}

// Lists the answers of all places, one byte each: 13, or 0 and laid down. Whatever the serials are.
#[unsafe(no_mangle)]
pub extern "C" fn gm_list(head: &[u64; 9], rows: &[u8; 2048], out: &mut [u8]) -> u8
    ensures by_index { (serials seconds : List ℕ) → result ≡ listing_code (listed_of (recovery_in head.now serials seconds rows.now) out.old).answer }
    ensures by_index_2 { (serials seconds : List ℕ) → out.new ≡ (listed_of (recovery_in head.now serials seconds rows.now) out.old).buffer }
{
    let h = words::read_head(head);
    let returned = h.returned;
    let full = h.full;
    let mourned = h.mourned;
    let earlier = h.earlier;
    let answer = lists::list(rows, returned, full, mourned, earlier, h.count, out);
    listing_code(answer)
}

// Whether no place is open: 1 or 0. Whatever the serials are.
#[unsafe(no_mangle)]
pub extern "C" fn gm_settled(head: &[u64; 9], rows: &[u8; 2048]) -> u8
    ensures { (serials seconds : List ℕ) → result ≡ yes_code (settled_of (recovery_in head.now serials seconds rows.now)) }
{
    let h = words::read_head(head);
    let returned = h.returned;
    let full = h.full;
    let mourned = h.mourned;
    let earlier = h.earlier;
    let count = h.count;
    let settled = blocking::settled(rows, returned, full, mourned, earlier, count);
    words::yes_code(settled)
}

// The unmourned places, as two words. Whatever the serials and the rows are.
#[unsafe(no_mangle)]
pub extern "C" fn gm_unmourned(head: &[u64; 9], out: &mut [u64; 2])
    ensures { (serials seconds rows : List ℕ) → out.new ≡ words_of (unmourned_of (recovery_in head.now serials seconds rows)) }
{
    let h = words::read_head(head);
    let all = standings::unmourned(h.mourned, h.count);
    words::put_set(out, all);
}

// The unmourned places that are absent, as two words. Whatever the serials and the rows are.
#[unsafe(no_mangle)]
pub extern "C" fn gm_unmourned_absent(head: &[u64; 9], out: &mut [u64; 2])
    ensures { (serials seconds rows : List ℕ) → out.new ≡ words_of (unmourned_absent_of (recovery_in head.now serials seconds rows)) }
{
    let h = words::read_head(head);
    let returned = h.returned;
    let all = standings::unmourned(h.mourned, h.count);
    let absent = places::difference(all, returned);
    words::put_set(out, absent);
}

// How many are unmourned. Whatever the serials and the rows are.
#[unsafe(no_mangle)]
pub extern "C" fn gm_unmourned_count(head: &[u64; 9]) -> usize
    ensures { (serials seconds rows : List ℕ) → result ≡ unmourned_count_of (recovery_in head.now serials seconds rows) }
{
    let h = words::read_head(head);
    let all = standings::unmourned(h.mourned, h.count);
    places::count(all)
}
