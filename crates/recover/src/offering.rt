// The records of the input, one after another: the first opens a recovery, and each is offered to it.
ghost use Rattle.std.specs.Prelude.{◌≡◌, [], ◌≤◌, length, drop, Ok, IfOk};
ghost use Rattle.serials.specs.Seconds.{itself};
ghost use Rattle.layouts.specs.Records.{reading, serials};
ghost use Rattle.calls.specs.Promises.{fresh};

use crate::{output, window};
use answers::Reply;
use records::Record;
use recovery::Recovery;
use refusals::Refusal;
use std::io::{self, Stdin, Stdout};

// What the input leaves: its recovery, of no places where none was opened, and how much of the output is gathered.
#[derive(Clone, Copy)]
pub struct Finished {
    pub recovery: Recovery,
    pub used: usize,
}

// A recovery of no places, as a refused opening gives it.
fn unopened() -> Recovery
    ensures { result ≡ fresh [] }
{
    let list = [0u32; 1];
    let refused = recovery::open(&list);
    refused.recovery
}

// The recovery that the record at a position opens, with its roster.
fn opened_by(bytes: &[u8], at: usize, x: Record) -> Recovery
    requires { reading itself bytes.now at ≡ Ok x }
    ensures { result ≡ fresh (serials x.count (drop x.roster bytes.now)) }
{
    let mut list = [0u32; 128];
    let count = x.count;
    records::copy_roster(bytes, x.roster, count, &mut list);
    let opened = recovery::open(&list[..count]);
    opened.recovery
}

// The order of a recovery's places in which its serials rise.
fn order_of(serials: &[u32], count: usize) -> [u8; 128] {
    if serials.len() < count {
        return orders::order(serials);
    }
    orders::order(&serials[..count])
}

// Reads the record at a position: most often its roster is the recovery's. No place has a second serial here.
fn read_next<'a>(
    bytes: &[u8],
    at: usize,
    serials: &'a [u32],
    count: usize,
    order: &'a [u8; 128],
) -> Result<Record, Refusal>
    ensures { result ≡ reading itself bytes.now at }
{
    if serials.len() < count {
        return records::read(bytes, at, &serials[..0], &serials[..0]);
    }
    records::read_like(bytes, at, &serials[..count], &serials[..0], order)
}

// Reads record after record to the end of the input, or to the first that cannot be read, and says the reply to each.
pub(crate) fn offer_all(
    from: Stdin,
    to: Stdout,
    input: &mut [u8],
    out: &mut [u8],
) -> io::Result<Finished>
    requires in_bounds { 1031 ≤ length input.old }
    requires in_bounds_2 { 64 ≤ length out.old }
    ensures { IfOk result (λ f. f.used ≤ length out.old) }
{
    let mut recovery = unopened();
    let mut order = [0u8; 128];
    let mut w = window::start();
    let mut used = 0;
    for number in 1..=u64::MAX {
        w = window::ready(from, input, w)?;
        let at = w.at;
        let have = w.have;
        if at == have {
            break;
        }
        let got = read_next(
            &input[..have],
            at,
            &recovery.serials,
            recovery.count,
            &order,
        );
        let Ok(x) = got else {
            if let Err(refusal) = got {
                used = output::say_record(to, out, used, number, Err(refusal))?;
            }
            break;
        };
        // one that cannot be read ends the reading, so the first that can is record 1
        if number == 1 {
            recovery = opened_by(&input[..have], at, x);
            order = order_of(&recovery.serials, recovery.count);
        }
        let returned = recovery.returned;
        let full = recovery.full;
        let answer = replies::judge(
            recovery.count,
            &recovery.serials,
            returned,
            full,
            &recovery.rows,
            &input[..have],
            x,
        );
        used = output::say_record(to, out, used, number, answer)?;
        // a recovery changes hands only where it changes
        if let Ok(Reply::Taken) = answer {
            let offered = recovery::offer_read(recovery, &input[..have], x);
            recovery = offered.recovery;
        }
        w = window::past(w, x.next);
    }
    Ok(Finished { recovery, used })
}
