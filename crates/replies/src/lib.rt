// What a group replies to a record that was read, judged by the parts of a recovery: no copy of the whole is needed.
#![tactic(auto)]

ghost use Rattle.std.specs.Prelude.{◌≡◌, true, cond, ◌&&◌};
ghost use Rattle.sets.specs.Sets as sets;
ghost use Rattle.sets.specs.PlaceSets.{has};
ghost use Rattle.answers.specs.Views.{size, accepted_in};
ghost use Rattle.answers.specs.declared.Reply.TheVariants as reply;
ghost use Rattle.refusals.specs.declared.Refusal.TheVariants as refused;
ghost use Rattle.answers.specs.Replies.{same_kind, entering, judgement};

use answers::Reply;
use histories::Kind;
use layouts::Record;
use refusals::Refusal;
use rows::Rows;
use sets::{Place, PlaceSet};

// Of one that is back: the same kind and mourned set again, or 10.
fn again(
    kind: Kind,
    rows: &Rows,
    returned: PlaceSet,
    full: PlaceSet,
    count: usize,
    own: Place,
    mourned: PlaceSet,
) -> Result<Reply, Refusal>
    requires { (accepted_in count (has returned) (has full) rows.now).returned own.0 ≡ true }
    ensures { result ≡ cond (same_kind kind ((accepted_in count (has returned) (has full) rows.now).kind own.0) && sets.same (size count) (has mourned) ((accepted_in count (has returned) (has full) rows.now).row own.0)) (Ok reply.Repeated) (Err refused.OtherRecord) }
{
    let first = standings::kind_of(full, own);
    if kind != first {
        return Err(Refusal::OtherRecord);
    }
    let all = places::below(count);
    let row = standings::recorded(rows, returned, count, own);
    let named = places::intersection(all, mourned);
    if places::same(named, row) {
        return Ok(Reply::Repeated);
    }
    Err(Refusal::OtherRecord)
}

// A record of the group: repeated or 10, 11, or taken.
fn enter(
    kind: Kind,
    rows: &Rows,
    returned: PlaceSet,
    full: PlaceSet,
    count: usize,
    own: Place,
    mourned: PlaceSet,
) -> Result<Reply, Refusal>
    ensures { result ≡ entering count (has returned) (has full) rows.now own.0 kind (has mourned) }
{
    let all = places::below(count);
    let back = places::intersection(all, returned);
    if places::contains(back, own) {
        return again(kind, rows, returned, full, count, own, mourned);
    }
    if acceptance::accepts(kind, rows, returned, full, count, own, mourned) {
        return Ok(Reply::Taken);
    }
    Err(Refusal::NoHistory)
}

// What a record that was read from some bytes meets in a group, judged without a copy of the recovery: 9, or as a record of it.
pub fn judge<'a>(
    count: usize,
    serials: &'a [u32],
    returned: PlaceSet,
    full: PlaceSet,
    rows: &'a Rows,
    bytes: &[u8],
    x: Record,
) -> Result<Reply, Refusal>
    ensures { result ≡ judgement count serials.now (has returned) (has full) rows.now bytes.now x }
{
    let n = groups::roster_length(count, serials);
    let at = x.roster;
    let m = x.count;
    if !roster_bytes::roster_is(bytes, at, m, &serials[..n]) {
        return Err(Refusal::OtherGroup);
    }
    let kind = x.kind;
    let own = x.own;
    let mourned = x.mourned;
    enter(kind, rows, returned, full, count, own, mourned)
}
