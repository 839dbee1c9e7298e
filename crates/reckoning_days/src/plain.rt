// The second reckoning. A set of places is the sum of their bits; the row of place p is the four bits from 4 p on.
use crate::event_lists::Turn;
use crate::outcomes;

// A day of two or three controllers after some events: those who have stopped, whom each has heard, how many events were played, and the
// refusal that the last one met, or 0.
#[derive(Clone, Copy)]
pub struct Plain {
    pub kind: u8,
    pub n: usize,
    pub stopped: u32,
    pub rows: u32,
    pub count: u64,
    pub refusal: u8,
}

pub fn begun(kind: u8, n: usize) -> Plain {
    Plain {
        kind,
        n,
        stopped: 0,
        rows: 0,
        count: 0,
        refusal: 0,
    }
}

pub fn bit(place: usize) -> u32 {
    match place {
        0 => 1,
        1 => 2,
        2 => 4,
        _ => 0,
    }
}

// The places of a roster.
pub fn all(n: usize) -> u32 {
    match n {
        2 => 3,
        _ => 7,
    }
}

// How many places stand in a set.
pub fn size(set: u32) -> u8 {
    (set % 2 + set / 2 % 2 + set / 4 % 2) as u8
}

fn at_row(place: usize, bits: u32) -> u32 {
    match place {
        0 => bits,
        1 => bits << 4,
        _ => bits << 8,
    }
}

pub fn row(d: Plain, place: usize) -> u32 {
    match place {
        0 => d.rows % 16,
        1 => d.rows / 16 % 16,
        _ => d.rows / 256 % 16,
    }
}

pub fn is_stopped(d: Plain, place: usize) -> bool {
    d.stopped & bit(place) != 0
}

pub fn all_stopped(d: Plain) -> bool {
    d.stopped == all(d.n)
}

fn stop_fault(d: Plain, p: usize) -> u8 {
    if d.n <= p {
        return 12;
    }
    if is_stopped(d, p) {
        return 14;
    }
    0
}

fn hear_fault(d: Plain, p: usize, q: usize) -> u8 {
    if d.n <= p {
        return 12;
    }
    if d.n <= q {
        return 12;
    }
    if is_stopped(d, p) {
        return 14;
    }
    if !is_stopped(d, q) {
        return 14;
    }
    0
}

fn fault(d: Plain, e: Turn) -> u8 {
    let kind = e.kind;
    match kind {
        1 => stop_fault(d, e.p),
        2 => hear_fault(d, e.p, e.q),
        _ => 14,
    }
}

// Those who note what p hears.
fn listeners(d: Plain, p: usize) -> u32 {
    if d.kind == 1 {
        return all(d.n) ^ d.stopped;
    }
    bit(p)
}

// Place p notes q, if it stands among those who do.
fn noted(rows: u32, who: u32, p: usize, q: usize) -> u32 {
    if who & bit(p) == 0 {
        return rows;
    }
    rows | at_row(p, bit(q))
}

fn noting(rows: u32, who: u32, q: usize) -> u32 {
    noted(noted(noted(rows, who, 0, q), who, 1, q), who, 2, q)
}

fn refused(d: Plain, refusal: u8) -> Plain {
    Plain {
        kind: d.kind,
        n: d.n,
        stopped: d.stopped,
        rows: d.rows,
        count: d.count,
        refusal,
    }
}

fn after(d: Plain, stopped: u32, rows: u32) -> Plain {
    Plain {
        kind: d.kind,
        n: d.n,
        stopped,
        rows,
        count: std::num::wrapping_add_u64(d.count, 1),
        refusal: 0,
    }
}

// One event, whatever the one before it met.
pub fn happen(d: Plain, e: Turn) -> Plain {
    let refusal = fault(d, e);
    if refusal != 0 {
        return refused(d, refusal);
    }
    if e.kind == 1 {
        return after(d, d.stopped | bit(e.p), d.rows);
    }
    after(d, d.stopped, noting(d.rows, listeners(d, e.p), e.q))
}

// One event of a list: after a refusal nothing more is played.
pub fn step(d: Plain, e: Turn) -> Plain {
    if d.refusal != 0 {
        return d;
    }
    happen(d, e)
}

// Whether a place was last: it stands in nobody's row.
pub fn last(d: Plain, place: usize) -> u64 {
    if (row(d, 0) | row(d, 1) | row(d, 2)) & bit(place) == 0 {
        return outcomes::LAST;
    }
    outcomes::NOT_LAST
}
