// Offering a stored record to a recovery: it is read, judged, and kept where it is taken.
#![tactic(auto)]

ghost use Rattle.std.specs.Prelude.{◌≡◌};
ghost use Rattle.sets.specs.PlaceSets.{has};
ghost use Rattle.answers.specs.Replies.{judgement};
ghost use Rattle.calls.specs.Promises.{keeping_full, keeping_row, keeping, answered, offered};

use answers::Reply;
use calls::{Offered, Recovery};
use histories::Kind;
use layouts::Record;
use refusals::Refusal;
use sets::{Place, PlaceSet};

// Marks a place as full, and adds those of its mourned set to the earlier ones.
fn keep_full(next: &mut Recovery, own: Place, mourned: PlaceSet)
    ensures { next.new ≡ keeping_full next.old own.0 (has mourned) }
{
    let full = next.full;
    next.full = places::with(full, own);
    let earlier = next.earlier;
    next.earlier = places::union(earlier, mourned);
}

// Marks a place as back, adds its mourned set to the mourned ones, and sets its row.
fn keep_row(next: &mut Recovery, own: Place, mourned: PlaceSet)
    ensures { next.new ≡ keeping_row next.old own.0 (has mourned) }
{
    let returned = next.returned;
    next.returned = places::with(returned, own);
    let named = next.mourned;
    next.mourned = places::union(named, mourned);
    row_tables::set(&mut next.rows, own, mourned);
}

// Keeps the record of a place.
fn keep(next: &mut Recovery, own: Place, kind: Kind, mourned: PlaceSet)
    ensures { next.new ≡ keeping next.old own.0 kind (has mourned) }
{
    match kind {
        Kind::Full => {
            keep_full(next, own, mourned);
            keep_row(next, own, mourned);
        }
        Kind::Short => keep_row(next, own, mourned),
    }
}

// What an answer to a record leaves.
fn apply(
    next: &mut Recovery,
    own: Place,
    kind: Kind,
    mourned: PlaceSet,
    answer: Result<Reply, Refusal>,
)
    ensures { record { answer = answer; recovery = next.new } ≡ answered next.old own.0 kind (has mourned) answer }
{
    match answer {
        Ok(Reply::Taken) => keep(next, own, kind, mourned),
        Ok(Reply::Repeated) => (),
        Err(_) => (),
    }
}

// Offers a record that was read from some bytes, and changes the recovery where it stands: 3 KB are not copied.
fn offer_read_in_place(r: &mut Recovery, bytes: &[u8], x: Record) -> Result<Reply, Refusal>
    ensures { record { answer = result; recovery = r.new } ≡ answered r.old x.own.0 x.kind (has x.mourned) (judgement r.old.count r.old.serials (has r.old.returned) (has r.old.full) r.old.rows bytes.now x) }
{
    let returned = r.returned;
    let full = r.full;
    let answer = replies::judge(r.count, &r.serials, returned, full, &r.rows, bytes, x);
    let own = x.own;
    let kind = x.kind;
    let mourned = x.mourned;
    apply(r, own, kind, mourned, answer);
    answer
}

// Offers a lone record, and changes the recovery where it stands.
fn offer_in_place(r: &mut Recovery, bytes: &[u8]) -> Result<Reply, Refusal>
    ensures { record { answer = result; recovery = r.new } ≡ offered r.old bytes.now }
{
    let x = groups::read_lone(r.count, &r.serials, &r.seconds, bytes)?;
    offer_read_in_place(r, bytes, x)
}

// Offers a record that was read from some bytes: 9, repeated or 10, 11, or taken.
pub fn offer_read(r: Recovery, bytes: &[u8], x: Record) -> Offered
    ensures { result ≡ answered r x.own.0 x.kind (has x.mourned) (judgement r.count r.serials (has r.returned) (has r.full) r.rows bytes.now x) }
{
    let mut left = r;
    let answer = offer_read_in_place(&mut left, bytes, x);
    Offered {
        answer,
        recovery: left,
    }
}

// Offers a lone record: 1 to 8, 9, repeated or 10, 11, or taken. Its own and mourned serials may be second ones of the group.
#[inline(always)]
pub fn offer(r: Recovery, bytes: &[u8]) -> Offered
    ensures { result ≡ offered r bytes.now }
{
    let mut left = r;
    let answer = offer_in_place(&mut left, bytes);
    Offered {
        answer,
        recovery: left,
    }
}
