// The public functions of a day beside a plain second reckoning: a set of those who have stopped, and a row for each controller. One
// line for each family of cases; before it one for the first case that differs, with all that it takes to repeat it: the day's kind, the
// roster's length, the events in order as KIND:PLACE:OTHER, what was looked at, and both outcomes.
#![tactic(auto)]

mod event_lists;
mod families;
mod named;
mod outcomes;
mod pairs;
mod parts;
mod plain;
mod returns;
mod say;
mod stored;
mod tallies;

use std::io;

fn main(rt: HostRuntime) -> io::Result<()> {
    let to = rt.stdout();
    families::of_lists(to)?;
    families::of_allowed(to)?;
    tallies::report(
        b"openings, and what a caller meets",
        named::cases(tallies::none(to)),
    )
}
