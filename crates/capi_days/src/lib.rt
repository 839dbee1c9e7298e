// A day of stops as C plays it: four words, 128 serials and 2,048 bytes of rows in the caller's memory. Nothing is kept between calls, and every input has an answer: include/goatmonth.h says what a caller
// promises of its pointers. What the words and numbers mean stands in `boundary`.
#![tactic(auto)]

ghost use Rattle.std.specs.Prelude.{◌≡◌, cond, [], ◌∷◌, get_or, ltb};
ghost use Rattle.refusals.specs.Numbers.{numbered};
ghost use Rattle.executions.specs.Promises as days;
ghost use Rattle.boundary.specs.Words.{end_of};
ghost use Rattle.boundary.specs.Days.{kind_in, stopped_in, day_in, event_of, day_head_of, with_stopped, done_code, begun_held, happened_held, day_of, day_now, play_code, played_now, stepped_now};

use boundary::{DayHead, DayNow, End, EventNow, PlayedNow};
use executions::{Day, Event, Played};
use histories::Kind;
use refusals::Refusal;
use sets::{Place, PlaceSet};

fn kind_of(word: u64) -> Kind
    ensures { result ≡ kind_in (word ∷ []) }
{
    if word == 2 {
        return Kind::Short;
    }
    Kind::Full
}

fn read_day_head(head: &[u64; 4]) -> DayHead
    ensures kind_value { result.kind ≡ kind_in head.now }
    ensures count_value { result.count ≡ get_or head.now 1 0 }
    ensures stopped_value { result.stopped ≡ stopped_in head.now }
{
    let stopped = PlaceSet {
        low: head[2],
        high: head[3],
    };
    DayHead {
        kind: kind_of(head[0]),
        count: head[1] as usize,
        stopped,
    }
}

fn write_day_head(head: &mut [u64; 4], kind: Kind, count: usize, stopped: PlaceSet)
    ensures { head.new ≡ day_head_of kind count stopped }
{
    let word = words::kind_word(kind);
    let words = [word, count as u64, stopped.low, stopped.high];
    *head = words;
}

// The two words of those that have stopped.
fn write_stopped(head: &mut [u64; 4], stopped: PlaceSet)
    ensures { head.new ≡ with_stopped head.old stopped }
{
    let words = [head[0], head[1], stopped.low, stopped.high];
    *head = words;
}

// An answer as a number: 0 where it was done, else that of the refusal.
fn done_code(answer: Result<(), Refusal>) -> u8
    ensures { result ≡ done_code answer }
{
    match answer {
        Ok(()) => 0,
        Err(refusal) => refusal as u8,
    }
}

// Opens a day: 2, 3, 4, 5, or 0. Where it is refused, nothing is written.
#[unsafe(no_mangle)]
pub extern "C" fn gm_day_open(
    kind: u8,
    list: &[u32],
    head: &mut [u64; 4],
    serials: &mut [u32; 128],
    rows: &mut [u8; 2048],
) -> u8
    ensures value { result ≡ (begun_held kind list.now head.old serials.old rows.old).code }
    ensures head_after { head.new ≡ (begun_held kind list.now head.old serials.old rows.old).head }
    ensures serials_after { serials.new ≡ (begun_held kind list.now head.old serials.old rows.old).serials }
    ensures rows_after { rows.new ≡ (begun_held kind list.now head.old serials.old rows.old).rows }
{
    let begun = day_records::open(kind, list);
    let answer = begun.answer;
    let d = begun.day;
    let kind = d.kind;
    let stopped = d.stopped;
    let all = d.serials;
    let unheard = d.rows;
    match answer {
        Ok(()) => {
            write_day_head(head, kind, d.count, stopped);
            *serials = all;
            *rows = unheard;
            0
        }
        Err(fault) => fault as u8,
    }
}

// The day in the caller's memory.
fn day_in(head: &[u64; 4], serials: &[u32; 128], rows: &[u8; 2048]) -> Day
    ensures { result ≡ day_in head.now serials.now rows.now }
{
    let h = read_day_head(head);
    let kind = h.kind;
    let stopped = h.stopped;
    let all = *serials;
    let heard = *rows;
    Day {
        kind,
        count: h.count,
        serials: all,
        stopped,
        rows: heard,
    }
}

// One event, of kind 1 a stop, of kind 2 a hearing: 12, 14, or 0.
#[unsafe(no_mangle)]
pub extern "C" fn gm_day_event(
    head: &mut [u64; 4],
    serials: &[u32; 128],
    rows: &mut [u8; 2048],
    kind: u8,
    place: usize,
    other: usize,
) -> u8
    ensures value { result ≡ (happened_held head.old serials.now rows.old (event_of kind place other)).code }
    ensures head_after { head.new ≡ (happened_held head.old serials.now rows.old (event_of kind place other)).head }
    ensures rows_after { rows.new ≡ (happened_held head.old serials.now rows.old (event_of kind place other)).rows }
{
    let before = day_in(head, serials, rows);
    let event = Event {
        kind,
        place: Place(place),
        other: Place(other),
    };
    let happened = day_events::happen(before, event);
    let after = happened.day;
    let stopped = after.stopped;
    let heard = after.rows;
    write_stopped(head, stopped);
    *rows = heard;
    done_code(happened.answer)
}

// Writes the record of one that has stopped into a lent buffer from a position on: 12, 14, 13, or 0 and where it ends.
#[unsafe(no_mangle)]
pub extern "C" fn gm_day_write(
    head: &[u64; 4],
    serials: &[u32; 128],
    rows: &[u8; 2048],
    place: usize,
    out: &mut [u8],
    at: usize,
) -> End
    ensures value { result ≡ end_of (numbered (days.written_of (day_in head.now serials.now rows.now) place out.old at).answer) }
    ensures out_after { out.new ≡ (days.written_of (day_in head.now serials.now rows.now) place out.old at).buffer }
{
    let day = day_in(head, serials, rows);
    let answer = day_records::write(day, Place(place), out, at);
    words::end_of(answer.map_err(|refusal| refusal as u8))
}

// A kind that no byte holds is as unknown as 0.
fn kind_byte(kind: u64) -> u8
    ensures { result ≡ cond (ltb kind 256) kind 0 }
{
    u8::try_from(kind).unwrap_or(0)
}

fn day_of(d: DayNow) -> Day
    ensures { result ≡ day_of d }
{
    let head = d.head;
    let serials = d.serials;
    let rows = d.rows;
    day_in(&head, &serials, &rows)
}

fn day_now(d: DayNow, after: Day) -> DayNow
    ensures { result ≡ day_now d after }
{
    let mut head = d.head;
    let serials = d.serials;
    let rows = after.rows;
    let stopped = after.stopped;
    write_stopped(&mut head, stopped);
    DayNow {
        head,
        serials,
        rows,
    }
}

// How a play ended as a number: 0 where all were played, else that of the refusal.
fn play_code(answer: Result<(), u8>) -> u8
    ensures { result ≡ play_code answer }
{
    match answer {
        Ok(()) => 0,
        Err(number) => number,
    }
}

// One event after those played: after a refusal nothing more is played.
fn day_step(p: PlayedNow, e: EventNow) -> PlayedNow
    ensures { result ≡ stepped_now p e }
{
    if p.refusal != 0 {
        return p;
    }
    let d = p.day;
    let day = day_of(d);
    let kind = kind_byte(e.kind);
    let event = Event {
        kind,
        place: Place(e.place as usize),
        other: Place(e.other as usize),
    };
    let before = Played {
        count: p.count as usize,
        answer: Ok(()),
        day,
    };
    let played = day_plays::step(before, event);
    let after = played.day;
    let day = day_now(d, after);
    PlayedNow {
        count: played.count as u64,
        refusal: play_code(played.answer) as u64,
        day,
    }
}

// The events in order, up to the first refusal.
#[unsafe(no_mangle)]
pub extern "C" fn gm_day_play(day: DayNow, events: &[EventNow]) -> PlayedNow
    ensures { result ≡ played_now day events.now }
{
    let mut p = PlayedNow {
        count: 0,
        refusal: 0,
        day,
    };
    for e in events {
        p = day_step(p, *e);
    }
    p
}
