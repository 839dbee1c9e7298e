// Opening a recovery, and its group's serials: finding one, giving a place a second one. A recovery goes in by value and comes back by value.
#![tactic(auto)]

ghost use Rattle.std.specs.Prelude.{◌≡◌, ◌≤◌, ◌<◌, length};
ghost use Rattle.calls.specs.Promises as contracts;
ghost use Rattle.calls.specs.Promises.{opened, found_in, with_second, given};

use calls::{Gave, Opened, Recovery};
use refusals::Refusal;
use serials::{Finding, Serial};
use sets::Place;

// A recovery with this roster, and nobody back.
fn fresh(list: &[u32]) -> Recovery
    requires { length list.now ≤ 128 }
    ensures { result ≡ contracts.fresh list.now }
{
    let serials = rosters::padded(list);
    let seconds = [0u32; 128];
    let nobody = places::empty();
    let rows = row_tables::none();
    Recovery {
        count: list.len(),
        serials,
        seconds,
        returned: nobody,
        full: nobody,
        mourned: nobody,
        earlier: nobody,
        rows,
    }
}

// A refused opening: a recovery of no places.
fn unopened(fault: Refusal) -> Opened
    ensures { result ≡ contracts.unopened fault }
{
    let serials = [0u32; 128];
    let nobody = places::empty();
    let rows = row_tables::none();
    let recovery = Recovery {
        count: 0,
        serials,
        seconds: serials,
        returned: nobody,
        full: nobody,
        mourned: nobody,
        earlier: nobody,
        rows,
    };
    Opened {
        answer: Err(fault),
        recovery,
    }
}

// Opens a recovery from a list of serials: 3, 4, 5, or opened.
pub fn open(list: &[u32]) -> Opened
    ensures { result ≡ opened list.now }
{
    let found = rosters::check(list);
    match found {
        Ok(()) => {
            let recovery = fresh(list);
            Opened {
                answer: Ok(()),
                recovery,
            }
        }
        Err(fault) => unopened(fault),
    }
}

// The place of a serial, and which of the place's two it is.
pub fn find(r: Recovery, serial: Serial) -> Option<Finding>
    ensures { result ≡ found_in r serial.0 }
{
    groups::find(r.count, &r.serials, &r.seconds, serial)
}

// The recovery with a second serial for a place of the roster.
fn with_second(r: Recovery, place: Place, serial: Serial) -> Recovery
    requires { place.0 < 128 }
    ensures { result ≡ with_second r place.0 serial.0 }
{
    let mut swapped = r;
    let p = place.0;
    swapped.seconds[p] = serial.0;
    swapped
}

// Gives a place a second serial: 12, 4, 16, or given. The accepted records stay as they are.
pub fn give(r: Recovery, place: Place, serial: Serial) -> Gave
    ensures { result ≡ given r place.0 serial.0 }
{
    let answer = groups::may_give(r.count, &r.serials, &r.seconds, place, serial);
    match answer {
        Ok(()) => {
            let swapped = with_second(r, place, serial);
            Gave {
                answer: Ok(()),
                recovery: swapped,
            }
        }
        Err(fault) => Gave {
            answer: Err(fault),
            recovery: r,
        },
    }
}
