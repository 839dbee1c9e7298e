// What a crew has to fetch, as C asks it of a recovery. Nothing is kept between calls, and every input has an answer: include/goatmonth.h says what a caller
// promises of its pointers. What the words and numbers mean stands in `boundary`.
#![tactic(auto)]

ghost use Rattle.std.specs.Prelude.{◌≡◌, List, ℕ, ◌≤◌};
ghost use Rattle.calls.specs.Promises.{fetching_of};
ghost use Rattle.games.specs.Games.{played};
ghost use Rattle.boundary.specs.Words.{set_at};
ghost use Rattle.boundary.specs.Recoveries.{recovery_in};
ghost use Rattle.boundary.specs.Fetches.{fetch_of, game_of};

use answers::Fetching;
use boundary::{FetchNow, GameNow};
use calls::Recovery;
use refusals::Refusal;
use sets::PlaceSet;

// The set whose two words stand from a position on.
fn set_at(head: &[u64; 9], at: usize) -> PlaceSet
    requires { at ≤ 7 }
    ensures { result ≡ set_at head.now at }
{
    PlaceSet {
        low: head[at],
        high: head[at + 1],
    }
}

// The recovery in the caller's memory.
fn recovery_in(
    head: &[u64; 9],
    serials: &[u32; 128],
    seconds: &[u32; 128],
    rows: &[u8; 2048],
) -> Recovery
    ensures { result ≡ recovery_in head.now serials.now seconds.now rows.now }
{
    let returned = set_at(head, 1);
    let full = set_at(head, 3);
    let mourned = set_at(head, 5);
    let earlier = set_at(head, 7);
    let roster = *serials;
    let others = *seconds;
    let recorded = *rows;
    Recovery {
        count: head[0] as usize,
        serials: roster,
        seconds: others,
        returned,
        full,
        mourned,
        earlier,
        rows: recorded,
    }
}

fn fetch_now(told: Option<Fetching>) -> FetchNow
    ensures { result ≡ fetch_of told }
{
    match told {
        None => FetchNow {
            number: 0,
            place: 128,
        },
        Some(fetching) => FetchNow {
            number: fetching.number as u64,
            place: fetching.next.0 as u64,
        },
    }
}

fn game_now(game: Result<usize, Refusal>) -> GameNow
    ensures { result ≡ game_of game }
{
    match game {
        Ok(fetches) => GameNow {
            refusal: 0,
            fetches: fetches as u64,
        },
        Err(fault) => GameNow {
            refusal: fault as u64,
            fetches: 0,
        },
    }
}

// How many fetches surely suffice, and the place to fetch next. Whatever the serials are.
#[unsafe(no_mangle)]
pub extern "C" fn gm_to_fetch(head: &[u64; 9], rows: &[u8; 2048]) -> FetchNow
    ensures { (serials seconds : List ℕ) → result ≡ fetch_of (fetching_of (recovery_in head.now serials seconds rows.now)) }
{
    let returned = set_at(head, 1);
    let full = set_at(head, 3);
    let mourned = set_at(head, 5);
    let earlier = set_at(head, 7);
    let count = head[0] as usize;
    let told = fetches::to_fetch(rows, returned, full, mourned, earlier, count);
    fetch_now(told)
}

// Plays the game out: 17 for a roster of more than four, or 0 and how many fetches it lasts where both play as well as can be.
#[unsafe(no_mangle)]
pub extern "C" fn gm_play(
    head: &[u64; 9],
    serials: &[u32; 128],
    seconds: &[u32; 128],
    rows: &[u8; 2048],
) -> GameNow
    ensures { result ≡ game_of (played (recovery_in head.now serials.now seconds.now rows.now)) }
{
    let r = recovery_in(head, serials, seconds, rows);
    let game = minimax::play(r);
    game_now(game)
}
