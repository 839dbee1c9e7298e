// A recovery as C links it: nine words, 128 serials, 128 second serials and 2,048 bytes of rows in the caller's memory. Opening, offering,
// finding and giving. Nothing is kept between calls, and every input has an answer: include/goatmonth.h says what a caller
// promises of its pointers. What the words and numbers mean stands in `boundary`.
#![tactic(auto)]

ghost use Rattle.std.specs.Prelude.{◌≡◌, List, ℕ, length};
ghost use Rattle.sets.specs.PlaceSets.{has};
ghost use Rattle.calls.specs.Promises.{keeping_full, keeping_row, keeping, answered, found_in, given};
ghost use Rattle.boundary.specs.Recoveries.{recovery_in, head_of, opened_held, offered_held, reply_code, found_of, giving_code};

use answers::Reply;
use boundary::{FoundNow, Head};
use histories::Kind;
use refusals::Refusal;
use serials::{Finding, Serial};
use sets::{Place, PlaceSet};

fn found_now(found: Option<Finding>) -> FoundNow
    ensures { result ≡ found_of found }
{
    match found {
        Some(Finding::First(place)) => FoundNow {
            answer: 39,
            place: place.0 as u64,
        },
        Some(Finding::Second(place)) => FoundNow {
            answer: 40,
            place: place.0 as u64,
        },
        None => FoundNow {
            answer: 41,
            place: 128,
        },
    }
}

// Opens a recovery: 3, 4, 5, or 0. Where it is refused, nothing is written.
#[unsafe(no_mangle)]
pub extern "C" fn gm_open(
    list: &[u32],
    head: &mut [u64; 9],
    serials: &mut [u32; 128],
    seconds: &mut [u32; 128],
    rows: &mut [u8; 2048],
) -> u8
    ensures value { result ≡ (opened_held list.now head.old serials.old seconds.old rows.old).code }
    ensures head_after { head.new ≡ (opened_held list.now head.old serials.old seconds.old rows.old).head }
    ensures serials_after { serials.new ≡ (opened_held list.now head.old serials.old seconds.old rows.old).serials }
    ensures seconds_after { seconds.new ≡ (opened_held list.now head.old serials.old seconds.old rows.old).seconds }
    ensures rows_after { rows.new ≡ (opened_held list.now head.old serials.old seconds.old rows.old).rows }
{
    let opened = openings::open(list);
    let answer = opened.answer;
    let r = opened.recovery;
    let returned = r.returned;
    let full = r.full;
    let mourned = r.mourned;
    let earlier = r.earlier;
    let roster = r.serials;
    let others = r.seconds;
    let recorded = r.rows;
    match answer {
        Ok(()) => {
            let h = Head {
                count: r.count,
                returned,
                full,
                mourned,
                earlier,
            };
            words::write_head(head, h);
            *serials = roster;
            *seconds = others;
            *rows = recorded;
            0
        }
        Err(fault) => fault as u8,
    }
}

// The words with a place that is full: those that it mourns are earlier.
fn mark_full(head: &mut [u64; 9], own: Place, row: PlaceSet)
    ensures { (serials seconds rows : List ℕ) → head.new ≡ head_of (keeping_full (recovery_in head.old serials seconds rows) own.0 (has row)) }
{
    let mut h = words::read_head(head);
    let full = h.full;
    h.full = places::with(full, own);
    let earlier = h.earlier;
    h.earlier = places::union(earlier, row);
    words::write_head(head, h);
}

// The words with a place that is back: those that it mourns are mourned.
fn mark_back(head: &mut [u64; 9], own: Place, row: PlaceSet)
    ensures { (serials seconds rows : List ℕ) → head.new ≡ head_of (keeping_row (recovery_in head.old serials seconds rows) own.0 (has row)) }
{
    let mut h = words::read_head(head);
    let returned = h.returned;
    h.returned = places::with(returned, own);
    let mourned = h.mourned;
    h.mourned = places::union(mourned, row);
    words::write_head(head, h);
}

// The words with the record of a place, as taking it leaves them. Whatever the serials and the rows are.
fn mark(head: &mut [u64; 9], own: Place, kind: Kind, row: PlaceSet)
    ensures { (serials seconds rows : List ℕ) → head.new ≡ head_of (keeping (recovery_in head.old serials seconds rows) own.0 kind (has row)) }
{
    match kind {
        Kind::Full => {
            mark_full(head, own, row);
            mark_back(head, own, row);
        }
        Kind::Short => mark_back(head, own, row),
    }
}

// What a reply to the record of a place leaves, and its number: one that is taken is kept. Whatever the serials are.
fn answer_with(
    head: &mut [u64; 9],
    rows: &mut [u8; 2048],
    own: Place,
    kind: Kind,
    row: PlaceSet,
    reply: Result<Reply, Refusal>,
) -> u8
    requires { length head.old ≡ 9 }
    ensures value { result ≡ reply_code reply }
    ensures by_index { (serials seconds : List ℕ) → head.new ≡ head_of (answered (recovery_in head.old serials seconds rows.old) own.0 kind (has row) reply).recovery }
    ensures by_index_2 { (serials seconds : List ℕ) → rows.new ≡ (answered (recovery_in head.old serials seconds rows.old) own.0 kind (has row) reply).recovery.rows }
{
    match reply {
        Ok(Reply::Taken) => {
            mark(head, own, kind, row);
            row_tables::set(rows, own, row);
            0
        }
        Ok(Reply::Repeated) => 32,
        Err(fault) => fault as u8,
    }
}

// Offers a lone record: 1 to 11, 32 for repeated, or 0 for taken.
#[unsafe(no_mangle)]
pub extern "C" fn gm_offer<'a>(
    head: &mut [u64; 9],
    serials: &'a [u32; 128],
    seconds: &'a [u32; 128],
    rows: &mut [u8; 2048],
    bytes: &[u8],
) -> u8
    ensures value { result ≡ (offered_held head.old serials.now seconds.now rows.old bytes.now).code }
    ensures head_after { head.new ≡ (offered_held head.old serials.now seconds.now rows.old bytes.now).head }
    ensures rows_after { rows.new ≡ (offered_held head.old serials.now seconds.now rows.old bytes.now).rows }
{
    let h = words::read_head(head);
    let returned = h.returned;
    let full = h.full;
    let got = groups::read_lone(h.count, serials, seconds, bytes);
    match got {
        Ok(x) => {
            let reply = replies::judge(h.count, serials, returned, full, rows, bytes, x);
            let own = x.own;
            let kind = x.kind;
            let row = x.mourned;
            answer_with(head, rows, own, kind, row, reply)
        }
        Err(fault) => fault as u8,
    }
}

// The place of a serial, and which of the place's two it is: 39 the first, 40 the second; 41 and place 128 where it is not found.
// Whatever the rows are.
#[unsafe(no_mangle)]
pub extern "C" fn gm_find<'a>(
    head: &[u64; 9],
    serials: &'a [u32; 128],
    seconds: &'a [u32; 128],
    serial: u32,
) -> FoundNow
    ensures { (rows : List ℕ) → result ≡ found_of (found_in (recovery_in head.now serials.now seconds.now rows) serial) }
{
    let h = words::read_head(head);
    let found = groups::find(h.count, serials, seconds, Serial(serial));
    found_now(found)
}

// Gives a place a second serial: 12, 4, 16, or 0. Whatever the rows are.
#[unsafe(no_mangle)]
pub extern "C" fn gm_give(
    head: &[u64; 9],
    serials: &[u32; 128],
    seconds: &mut [u32; 128],
    place: usize,
    serial: u32,
) -> u8
    ensures by_index { (rows : List ℕ) → result ≡ giving_code (given (recovery_in head.now serials.now seconds.old rows) place serial).answer }
    ensures by_index_2 { (rows : List ℕ) → seconds.new ≡ (given (recovery_in head.now serials.now seconds.old rows) place serial).recovery.seconds }
{
    let h = words::read_head(head);
    let answer = groups::may_give(h.count, serials, seconds, Place(place), Serial(serial));
    match answer {
        Ok(()) => {
            seconds[place] = serial;
            0
        }
        Err(fault) => fault as u8,
    }
}
