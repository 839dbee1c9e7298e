// The piles of small rosters, one after another.
use crate::seconds;
use matrices::cases;
use matrices::cases::Case;
use std::io::{self, Stdout};
use trials::tallies::Tally;
use trials::{parts, tallies};

fn all_piles(list: &[u32], n: usize, tally: Tally) -> Tally {
    let mut t = tally;
    for pile in 0..cases::piles(n) {
        let c = Case {
            n,
            pile,
            order: pile % 24,
        };
        t = seconds::played(list, c, t);
    }
    t
}

// Every pile of a roster, beside the list of all its histories.
fn roster(n: usize, t: Tally) -> Tally {
    let mut list = [0u32; 1024];
    let count = matrices::gather(n, &mut list);
    all_piles(parts::of_listed(&list, count), n, t)
}

// Rosters of one, two and three places.
pub fn of_small_rosters(to: Stdout) -> io::Result<()> {
    let t = roster(1, tallies::none(to));
    let t = roster(2, t);
    let t = roster(3, t);
    tallies::report(
        b"every pile of 1 to 3 places of every mix of kinds, and after it every record of both kinds in every mix of first and second serials",
        t,
    )
}
