// A list of events, played one after another up to the first refusal.
#![tactic(auto)]

ghost use Rattle.std.specs.Prelude.{◌≡◌};
ghost use Rattle.executions.specs.Promises as contracts;
ghost use Rattle.executions.specs.Promises.{stepped, played};

use executions::{Day, Event, Happened, Played};

// What is played after n events and one more: the largest number there is stays.
fn counted(n: usize, h: Happened) -> Played
    ensures { result ≡ contracts.counted n h }
{
    let day = h.day;
    match h.answer {
        Ok(()) => Played {
            count: n.saturating_add(1),
            answer: Ok(()),
            day,
        },
        Err(refusal) => Played {
            count: n,
            answer: Err(refusal as u8),
            day,
        },
    }
}

// One event after those played: after a refusal nothing more is played.
pub fn step(p: Played, e: Event) -> Played
    ensures { result ≡ stepped p e }
{
    if p.answer.is_err() {
        return p;
    }
    let day = p.day;
    let next = day_events::happen(day, e);
    counted(p.count, next)
}

// The events in order, up to the first refusal.
pub fn play(d: Day, events: &[Event]) -> Played
    ensures { result ≡ played d events.now }
{
    let mut p = Played {
        count: 0,
        answer: Ok(()),
        day: d,
    };
    for e in events {
        p = step(p, *e);
    }
    p
}
