// A recovery led through cases by hand. Each line of `stdin` is a call on it or a heading, and `stdout` has the line with what the call
// gave. Behind a number sign stands a remark. The calls, by their first letters:
//     unit N                              serials are multiples of 65536 from here on where N is that, else what they are
//     open SERIALS                        a new recovery
//     record KIND OWN: ROSTER: MOURNED    offers a record, laid out by this program
//     bytes HEX                           offers these bytes
//     give PLACE SERIALS                  second serials for the places from this one on
//     find SERIALS
//     ask PLACE
//     tell                                every answer: places (l last, n not, o open), whole, sets in hexadecimal, what to fetch
//     list ROOM                           into a buffer of so many bytes
//     show PLACE ROOM ROOM                into two
//     check LENGTH AT BYTE ..             a history of zeros but for these bytes
//     write PLACE ROOM AT
//     play                                the game of fetches
#![tactic(auto)]

mod asking;
mod lending;
mod offering;

use offering::Stage;
use std::io::{self, Stdout};

fn main(rt: HostRuntime) -> io::Result<()> {
    let mut input = [0u8; 65536];
    let n = scripts::read_full(rt.stdin(), &mut input)?;
    lines(rt.stdout(), &input[..n])
}

// One line, and the recovery after it.
fn line(to: Stdout, s: Stage, words: &[u8]) -> io::Result<Stage> {
    trials::say::text(to, words)?;
    let next = offering::call(to, s, words)?;
    trials::say::text(to, b"\n")?;
    Ok(next)
}

fn lines(to: Stdout, input: &[u8]) -> io::Result<()> {
    let mut s = offering::unopened();
    let mut from = 0;
    while from < input.len() {
        let n = scripts::up_to(input, from, b'\n');
        let next = line(to, s, scripts::part(input, from, n))?;
        s = next;
        from += n;
        from += 1;
    }
    Ok(())
}
