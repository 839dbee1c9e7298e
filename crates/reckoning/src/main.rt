// The public functions of a recovery beside a plain second reckoning, which lists all histories of a small roster and counts, place by
// place, in how many of the fitting ones the place is last. One line for each family of cases; before it one for the first case that
// differs, with all that it takes to repeat it: the roster's length, the records in order as KIND:PLACE:SET, the call, and both outcomes.
// A set is the sum of its places' bits. Fetches are reckoned from the same list, and the game of fetches by a table over all piles. Board
// swaps have a second reckoning of their own, of two places and few serials.
#![tactic(auto)]

mod alike;
mod boards;
mod buffers;
mod caller;
mod cases;
mod counts;
mod families;
mod givings;
mod group;
mod laid;
mod listings;
mod matrices;
mod outcomes;
mod parts;
mod piles;
mod plays;
mod runs;
mod say;
mod seconds;
mod stored;
mod swaps;
mod tallies;
mod told;
mod trips;

use std::io;

fn main(rt: HostRuntime) -> io::Result<()> {
    let to = rt.stdout();
    families::of_small_rosters(to)?;
    plays::all(to)?;
    let t = group::cases(tallies::none(to));
    tallies::report(b"what a group and a caller meet", caller::cases(t))?;
    tallies::report(b"counts and serials", counts::cases(tallies::none(to)))?;
    tallies::report(
        b"board swaps, case by case",
        boards::cases(tallies::none(to)),
    )?;
    tallies::report(b"fetches, case by case", trips::cases(tallies::none(to)))?;
    givings::all(to)?;
    families::of_four_places(to)
}
