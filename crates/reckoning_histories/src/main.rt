// What is left of a recovery, shown, written and checked, beside a plain second reckoning, which lists all histories of a small roster. One
// line for each family of cases; before it one for the first case that differs, with all that it takes to repeat it: the roster's length, the
// records in order as KIND:PLACE:SET, the call, and both outcomes. A set is the sum of its places' bits, a history that of its rows' bits.
#![tactic(auto)]

mod buffers;
mod families;

use std::io;

fn main(rt: HostRuntime) -> io::Result<()> {
    let to = rt.stdout();
    families::of_small_rosters(to)?;
    families::of_four_places(to)
}
