// Document 01's program: it reads records from standard input, and writes a line for each, one for each place and one for the whole.
#![tactic(auto)]

mod listing;
mod offering;
mod output;
mod window;

use std::io;

fn main(rt: HostRuntime) -> io::Result<()> {
    let to = rt.stdout();
    let mut input = [0u8; 65536];
    let mut out = [0u8; 16384];
    let done = offering::offer_all(rt.stdin(), to, &mut input, &mut out)?;
    let recovery = done.recovery;
    let used = listing::list_all(to, &mut out, done.used, recovery)?;
    output::flush(to, &out, used)
}
