// Board swaps beside a plain second reckoning: records in second serials after every pile of a small roster, beside the list of all its
// histories; and every few givings to two places, reckoned over small serials. One line for each family of cases; before it one for the first
// case that differs, with all that it takes to repeat it: the records in order as KIND:PLACE:SET or the givings as PLACE:SERIAL, the call,
// and both outcomes. A set is the sum of its places' bits.
#![tactic(auto)]

mod families;
mod givings;
mod seconds;

use std::io;

fn main(rt: HostRuntime) -> io::Result<()> {
    let to = rt.stdout();
    families::of_small_rosters(to)?;
    givings::all(to)
}
