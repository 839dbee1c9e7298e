// The check of a lent history: its rows stand at the front of some bytes, 16 bytes each, in roster order. `count` is the roster's length (one
// above 128 counts as 128).
#![tactic(auto)]

ghost use Rattle.std.specs.Prelude.{◌≡◌, true, false, not, ◌&&◌, ◌||◌, ℕ, ◌-◌, ◌<◌, ◌≤◌, get_or};
ghost use Rattle.sets.specs.Sets.{intersection, any, all, subset, same};
ghost use Rattle.sets.specs.PlaceSets.{has};
ghost use Rattle.rows.specs.Rows.{rows_of, history_in};
ghost use Rattle.histories.specs.Rule.{reach, fits_test};
ghost use Rattle.answers.specs.Views.{size, accepted_in};
ghost use Rattle.answers.specs.Checks.{off_roster, Covered};

use rows::Rows;
use sets::{Place, PlaceSet};

// The lent row of a place, as it is in the history of every roster that has the place.
fn lent_row(history: &[u8], p: usize) -> PlaceSet
    requires { p < 128 }
    ensures { (n : ℕ) → p < n → has result ≡ history_in n history.now p }
{
    row_bytes::read(history, Place(p))
}

// The places that stand in some row.
fn all_named(history: &[u8], n: usize) -> PlaceSet
    requires { n ≤ 128 }
    ensures { has result ≡ (λ q. any n (λ p. history_in n history.now p q)) }
{
    let mut named = places::empty();
    let mut p = 0;
    while p < n {
        named = places::union(lent_row(history, p), named);
        p += 1;
    }
    named
}

// Whether some row has a place off the roster.
pub fn off_roster(history: &[u8], count: usize) -> bool
    ensures { result ≡ off_roster (size count) (history_in (size count) history.now) }
{
    let n = standings::size(count);
    let off = places::difference(all_named(history, n), places::below(n));
    !places::is_empty(off)
}

// Whether the lent row of p is the recorded one as far as the roster goes.
fn row_recorded(history: &[u8], rows: &Rows, n: usize, p: usize) -> bool
    requires { (n ≤ 128) × (p < n) }
    ensures { result ≡ same n (history_in n history.now p) (rows_of rows.now p) }
{
    let roster = places::below(n);
    let lent = places::intersection(lent_row(history, p), roster);
    let recorded = places::intersection(row_tables::get(rows, Place(p)), roster);
    places::same(lent, recorded)
}

// Whether the row of each returned place is the recorded one.
fn all_recorded(history: &[u8], rows: &Rows, returned: PlaceSet, n: usize) -> bool
    requires { n ≤ 128 }
    ensures { result ≡ all n (λ p. not (has returned p) || same n (history_in n history.now p) (rows_of rows.now p)) }
{
    for p in places::members(places::intersection(returned, places::below(n))) {
        if !row_recorded(history, rows, n, p.0) {
            return false;
        }
    }
    true
}

// The members of a row that have their turn with it: all, where the row is of a member of `due`, else none.
fn spared_by(due: PlaceSet, m: Place, row: PlaceSet) -> PlaceSet
    ensures { has result ≡ (λ q. has due m.0 && has row q) }
{
    if places::contains(due, m) {
        return row;
    }
    places::empty()
}

// Whether the row of p holds the rows of its members, as far as the roster goes. One that stands in the row of a member of `due` is not
// looked at: that row has its own turn.
fn row_closed(history: &[u8], due: PlaceSet, n: usize, p: usize) -> bool
    requires { (n ≤ 128) × (p < n) }
    ensures covered { result ≡ true → (m : ℕ) → m < n → history_in n history.now p m ≡ true → Covered n (history_in n history.now) (has due) p m }
    ensures p_value { result ≡ false → subset n (reach n (history_in n history.now) p) (history_in n history.now p) ≡ false }
{
    let roster = places::below(n);
    let row = lent_row(history, p);
    let mut left = places::intersection(row, roster);
    // no `for`: with each member its spared ones leave too
    loop {
        let found = places::lowest(left);
        let Some(m) = found else {
            return true;
        };
        let inner = places::intersection(lent_row(history, m.0), roster);
        if !places::is_subset(inner, row) {
            return false;
        }
        let spared = spared_by(due, m, inner);
        left = places::without(places::difference(left, spared), m);
    }
}

// Where nobody is before itself: whether the row of each of `due` holds everyone before it.
fn duty_met(history: &[u8], due: PlaceSet, n: usize) -> bool
    requires { (n ≤ 128) × (all n (λ p. not (reach n (history_in n history.now) p p)) ≡ true) }
    ensures { result ≡ all n (λ p. not (has due p) || subset n (reach n (history_in n history.now) p) (history_in n history.now p)) }
{
    for p in places::members(places::intersection(due, places::below(n))) {
        if !row_closed(history, due, n, p.0) {
            return false;
        }
    }
    true
}

// Whether two sets have a member in common.
fn meets(a: PlaceSet, b: PlaceSet) -> bool
    ensures { result ≡ any 128 (intersection (has a) (has b)) }
{
    let common = places::intersection(a, b);
    !places::is_empty(common)
}

// Where a walk can go on: from the end of the path to the places of its row that are left; with no path, to any that is left.
fn ahead(history: &[u8], left: PlaceSet, path: &[u8; 128], depth: usize) -> PlaceSet
    requires { (depth ≤ 128) × ((i : ℕ) → i < depth → get_or path.now i 0 < 128) }
    ensures result_value { depth ≡ 0 → has result ≡ has left }
    ensures by_index { (n : ℕ) → 0 < depth → get_or path.now (depth - 1) 0 < n → has result ≡ intersection (history_in n history.now (get_or path.now (depth - 1) 0)) (has left) }
{
    if depth == 0 {
        return left;
    }
    let end = path[depth - 1] as usize;
    let row = lent_row(history, end);
    places::intersection(row, left)
}

// Whether no place is before itself. A walk meets each place once: each place of its path stands in the row of the one before, and
// a row that meets the path closes a circle. A place leaves the path when nothing in its row is left to be met.
fn no_circle(history: &[u8], n: usize) -> bool
    requires { n ≤ 128 }
    ensures { result ≡ all n (λ p. not (reach n (history_in n history.now) p p)) }
{
    let mut path = [0u8; 128];
    let mut depth = 0;
    let mut on = places::empty();
    let mut left = places::below(n);
    loop {
        let found = places::lowest(ahead(history, left, &path, depth));
        let Some(p) = found else {
            if depth == 0 {
                return true;
            }
            depth -= 1;
            let end = path[depth] as usize;
            on = places::without(on, Place(end));
            continue;
        };
        path[depth] = p.0 as u8;
        depth += 1;
        left = places::without(left, p);
        on = places::with(on, p);
        if meets(lent_row(history, p.0), on) {
            return false;
        }
    }
}

// Whether the lent history fits the accepted records, if no row has a place off the roster.
pub fn fits(rows: &Rows, returned: PlaceSet, full: PlaceSet, count: usize, history: &[u8]) -> bool
    ensures { result ≡ fits_test (size count) (accepted_in count (has returned) (has full) rows.now) (history_in (size count) history.now) }
{
    let n = standings::size(count);
    if !all_recorded(history, rows, returned, n) {
        return false;
    }
    if !no_circle(history, n) {
        return false;
    }
    let due = places::intersection(returned, full);
    duty_met(history, due, n)
}
