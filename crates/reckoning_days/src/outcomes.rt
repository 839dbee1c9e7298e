// Every outcome as one number: a refusal is its own number, the others stand above all counts and positions that occur.
use crate::say;
use answers::{Answer, Reply};
use refusals::Refusal;
use std::io::{self, Stdout};

pub const OPENED: u64 = 1000001;

pub const TAKEN: u64 = 1000002;

pub const REPEATED: u64 = 1000003;

pub const LAST: u64 = 1000004;

pub const NOT_LAST: u64 = 1000005;

pub const OPEN: u64 = 1000006;

pub const REFUSED_BY_0: u64 = 1000007;

// An outcome in words, or as the number that it is.
pub fn write(to: Stdout, x: u64) -> io::Result<()> {
    match x {
        1000001 => say::text(to, b"opened"),
        1000002 => say::text(to, b"taken"),
        1000003 => say::text(to, b"repeated"),
        1000004 => say::text(to, b"last"),
        1000005 => say::text(to, b"not"),
        1000006 => say::text(to, b"open"),
        _ => say::number(to, x),
    }
}

pub fn opening(got: Result<(), Refusal>) -> u64 {
    match got {
        Ok(()) => OPENED,
        Err(fault) => fault as u64,
    }
}

pub fn reply(got: Result<Reply, Refusal>) -> u64 {
    match got {
        Ok(Reply::Taken) => TAKEN,
        Ok(Reply::Repeated) => REPEATED,
        Err(fault) => fault as u64,
    }
}

pub fn asked(got: Result<Answer, Refusal>) -> u64 {
    match got {
        Ok(Answer::Last) => LAST,
        Ok(Answer::NotLast) => NOT_LAST,
        Ok(Answer::Open) => OPEN,
        Err(fault) => fault as u64,
    }
}

// Where a written record ends. Refusals are told from the positions, which are larger than 15 in all cases here.
pub fn writing(got: Result<usize, Refusal>) -> u64 {
    match got {
        Ok(next) => next as u64,
        Err(fault) => fault as u64,
    }
}

// What an event meets: 0 where it happens.
pub fn happening(got: Result<(), Refusal>) -> u64 {
    match got {
        Ok(()) => 0,
        Err(fault) => fault as u64,
    }
}

// How a play ended: 0 where all were played. No refusal has the number 0, so one that came would be told from it.
pub fn playing(got: Result<(), u8>) -> u64 {
    match got {
        Ok(()) => 0,
        Err(0) => REFUSED_BY_0,
        Err(number) => number as u64,
    }
}

pub fn truth(got: bool) -> u64 {
    if got {
        return 1;
    }
    0
}
