// The game of fetches beside a plain second reckoning, a table over all piles of a small roster. One line for the family of cases; before it
// one for the first case that differs, with all that it takes to repeat it: the roster's length, the records in order as KIND:PLACE:SET, the
// call, and both outcomes. A set is the sum of its places' bits.
#![tactic(auto)]

mod plays;

use std::io;

fn main(rt: HostRuntime) -> io::Result<()> {
    plays::all(rt.stdout())
}
