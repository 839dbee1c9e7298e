// The calls, by the first letters of their lines; any other line is a heading.
use crate::stage::Stage;
use crate::{lists, reading, stage, writing};
use std::io::{self, Stdout};

// Those that spell the bytes that they read, or make bytes to read.
fn set(to: Stdout, s: Stage, words: &[u8]) -> io::Result<Stage> {
    match scripts::byte(words, 0) {
        b'u' => Ok(stage::unit(s, words)),
        b'f' => Ok(stage::firsts(s, words)),
        b'g' => Ok(stage::given(s, words)),
        b'm' => Ok(stage::make(s, words)),
        b'p' => Ok(stage::patch(s, words)),
        b't' => Ok(stage::trim(s, words)),
        b'w' => writing::write(to, s, words),
        b'b' | b'r' | b'l' | b'd' | b'o' => Ok(stage::bytes(s, words)),
        _ => Ok(s),
    }
}

// Those that leave it as it is.
fn look(to: Stdout, s: Stage, words: &[u8]) -> io::Result<()> {
    match scripts::byte(words, 0) {
        b'r' | b'l' | b'd' | b'o' | b'a' | b's' | b'c' | b'e' => reading::call(to, s, words),
        b'n' => lists::numbers(to, s, words),
        b'q' => lists::query(to, s, words),
        b'i' => lists::is(to, s, words),
        b'k' => lists::keep(to, s, words),
        _ => Ok(()),
    }
}

pub fn call(to: Stdout, s: Stage, words: &[u8]) -> io::Result<Stage> {
    let next = set(to, s, words)?;
    look(to, next, words)?;
    Ok(next)
}
