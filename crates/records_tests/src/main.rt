// Cases of reading and writing records and of lists taken as rosters, each with its answer on a line.
#![tactic(auto)]

mod beside;
mod desk;
mod lists;
mod reading;
mod say;
mod streams;
mod swaps;
mod writing;

use std::io;

fn main(rt: HostRuntime) -> io::Result<()> {
    let to = rt.stdout();
    let mut input = [0u8; 65536];
    let n = reading::read_full(rt.stdin(), &mut input)?;
    reading::table(to, &input[..n])?;
    say::text(to, b"-- Positions, and whole records\n")?;
    reading::positions(to)?;
    streams::all_cuts(to)?;
    streams::listing(to)?;
    streams::longest(to)?;
    streams::other_counts(to)?;
    streams::one_bit(to)?;
    say::text(to, b"-- Lists of serials\n")?;
    lists::opening(to)?;
    lists::longer(to)?;
    lists::faults(to)?;
    lists::faults_marked(to)?;
    lists::faults_of_twenty(to)?;
    lists::faults_of_many(to)?;
    lists::finding(to)?;
    lists::alike(to)?;
    say::text(to, b"-- Writing\n")?;
    writing::back(to)?;
    writing::off_the_roster(to)?;
    writing::of_one(to)?;
    writing::refused(to)?;
    writing::too_short(to)?;
    say::text(to, b"-- A roster beside a list\n")?;
    beside::compared(to)?;
    beside::not_there(to)?;
    beside::counted(to)?;
    beside::copied(to)?;
    beside::not_copied(to)?;
    say::text(to, b"-- Second serials beside a roster\n")?;
    swaps::beside(to)?;
    swaps::other_groups(to)?;
    swaps::positions(to)?;
    swaps::ordered(to)?;
    swaps::longest(to)?;
    swaps::on_its_roster(to)?;
    swaps::on_other_rosters(to)?;
    say::text(to, b"-- What the ticket desk is shown\n")?;
    desk::kept(to)?;
    desk::all_cuts(to)?;
    desk::longest(to)
}
