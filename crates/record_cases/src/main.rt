// Stored records and lists of serials, case by case. Each line of `stdin` is a call or a heading, and `stdout` has the line with what the
// call gave. Behind a number sign stands a remark. The calls, by their first letters:
//     unit N                                  serials are multiples of 65536 from here on where N is that, else what they are
//     firsts SERIALS, given SERIALS           the first and the second serials of the group that reads
//     bytes HEX, make KIND OWN: ROSTER: MOURNED, patch AT BYTE, trim LENGTH      bytes to read
//     read HEX, lone HEX, desk HEX, ordered HEX     these bytes: from a stream, as a lone record, for the ticket desk, by the group's order
//     at POSITION                             the bytes from there on, as from a stream
//     slice LENGTH                            the bytes for the desk, over a slice of so many of them
//     each                                    the bytes from a stream, alone and for the desk
//     cuts                                    what every cut of the bytes meets from a stream, alone and at the desk; 0 for no refusal
//     is AT COUNT: SERIALS, keep AT COUNT     a roster in the bytes: compared, and copied into a list of fives
//     numbers SERIALS                         what an opening with them meets, and the first fault along them
//     query SERIAL FROM: ROSTER               where a serial stands, looked for from a place on first
//     write KIND PLACE ROOM AT: ROSTER: PLACES      a record written; the buffer is then the bytes to read
#![tactic(auto)]

mod commands;
mod lists;
mod reading;
mod say;
mod stage;
mod writing;

use stage::Stage;
use std::io::{self, Stdout};

fn main(rt: HostRuntime) -> io::Result<()> {
    let mut input = [0u8; 65536];
    let n = scripts::read_full(rt.stdin(), &mut input)?;
    lines(rt.stdout(), &input[..n])
}

// One line, and what the next ones read.
fn line(to: Stdout, s: Stage, words: &[u8]) -> io::Result<Stage> {
    trials::say::text(to, words)?;
    let next = commands::call(to, s, words)?;
    trials::say::text(to, b"\n")?;
    Ok(next)
}

fn lines(to: Stdout, input: &[u8]) -> io::Result<()> {
    let mut s = stage::none();
    let mut from = 0;
    while from < input.len() {
        let n = scripts::up_to(input, from, b'\n');
        let next = line(to, s, scripts::part(input, from, n))?;
        s = next;
        from += n;
        from += 1;
    }
    Ok(())
}
