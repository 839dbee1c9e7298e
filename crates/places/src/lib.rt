// Sets of the places 0 to 127. Contracts speak of a set by its members (`has`): above this crate only `row_bytes`, `lists`, `minimax` and the
// crates for C, for which a set is bytes, a number or words, look at the two words.
#![tactic(auto)]

ghost use Rattle.std.specs.Prelude.{◌≡◌, not, ℕ, ◌<◌, ltb};
ghost use Rattle.std.specs.Iterator.{at_most};
ghost use Rattle.sets.specs.Sets as sets;
ghost use Rattle.sets.specs.PlaceSets.{bit, has, kept, found};
ghost use Rattle.sets.specs.Members.{TakesLowest};

use sets::{Place, PlaceSet};

// The set with no member.
pub fn empty() -> PlaceSet
    ensures { has result ≡ sets.nothing }
{
    PlaceSet { low: 0, high: 0 }
}

// Whether the place is a member.
pub fn contains(s: PlaceSet, place: Place) -> bool
    ensures { result ≡ has s place.0 }
{
    let p = place.0;
    if p < 64 {
        (s.low >> p) & 1 == 1
    } else if p < 128 {
        (s.high >> (p - 64)) & 1 == 1
    } else {
        false
    }
}

// The set of one place.
pub fn only(place: Place) -> PlaceSet
    ensures { has result ≡ kept (sets.only place.0) }
{
    let p = place.0;
    if p < 64 {
        PlaceSet {
            low: 1u64 << p,
            high: 0,
        }
    } else if p < 128 {
        PlaceSet {
            low: 0,
            high: 1u64 << (p - 64),
        }
    } else {
        empty()
    }
}

// The members of either.
pub fn union(a: PlaceSet, b: PlaceSet) -> PlaceSet
    ensures { has result ≡ sets.union (has a) (has b) }
{
    PlaceSet {
        low: a.low | b.low,
        high: a.high | b.high,
    }
}

// The members of both.
pub fn intersection(a: PlaceSet, b: PlaceSet) -> PlaceSet
    ensures { has result ≡ sets.intersection (has a) (has b) }
{
    PlaceSet {
        low: a.low & b.low,
        high: a.high & b.high,
    }
}

// The members of `a` that are not in `b`.
pub fn difference(a: PlaceSet, b: PlaceSet) -> PlaceSet
    ensures { has result ≡ sets.difference (has a) (has b) }
{
    PlaceSet {
        low: a.low & (a.low ^ b.low),
        high: a.high & (a.high ^ b.high),
    }
}

// The set with one place more.
pub fn with(s: PlaceSet, place: Place) -> PlaceSet
    ensures { has result ≡ kept (sets.with place.0 (has s)) }
{
    let one = only(place);
    union(s, one)
}

// The set with one place less.
pub fn without(s: PlaceSet, place: Place) -> PlaceSet
    ensures { has result ≡ sets.without place.0 (has s) }
{
    let one = only(place);
    difference(s, one)
}

// Whether there is no member.
pub fn is_empty(s: PlaceSet) -> bool
    ensures { result ≡ not (sets.any 128 (has s)) }
{
    s.low == 0 && s.high == 0
}

// Whether every member of `a` is a member of `b`.
pub fn is_subset(a: PlaceSet, b: PlaceSet) -> bool
    ensures { result ≡ sets.subset 128 (has a) (has b) }
{
    let rest = difference(a, b);
    is_empty(rest)
}

// Whether the members are the same.
pub fn same(a: PlaceSet, b: PlaceSet) -> bool
    ensures { result ≡ sets.same 128 (has a) (has b) }
{
    a.low == b.low && a.high == b.high
}

// The word whose digits below n, of 64, are 1.
fn word_below(n: usize) -> u64
    ensures { (k : ℕ) → k < 64 → bit result k ≡ ltb k n }
{
    if n < 64 {
        (1u64 << n) - 1
    } else {
        0xffff_ffff_ffff_ffff
    }
}

// The places below n.
pub fn below(n: usize) -> PlaceSet
    ensures { has result ≡ kept (sets.below n) }
{
    if n < 64 {
        PlaceSet {
            low: word_below(n),
            high: 0,
        }
    } else {
        PlaceSet {
            low: 0xffff_ffff_ffff_ffff,
            high: word_below(n - 64),
        }
    }
}

// How many members.
pub fn count(s: PlaceSet) -> usize
    ensures { result ≡ sets.count 128 (has s) }
{
    (u64::count_ones(s.low) + u64::count_ones(s.high)) as usize
}

// The lowest member.
pub fn lowest(s: PlaceSet) -> Option<Place>
    ensures { result ≡ found 128 (sets.lowest 128 (has s)) }
{
    if s.low != 0 {
        Some(Place(u64::trailing_zeros(s.low) as usize))
    } else if s.high != 0 {
        Some(Place(64 + u64::trailing_zeros(s.high) as usize))
    } else {
        None
    }
}

// The members that a walk over a set has not passed.
#[derive(Drop)]
pub struct Walk {
    pub left: PlaceSet,
}

impl Iterator for Walk {
    type Item = Place;

    ghost next_gives = { λ s r t. TakesLowest s.left r t.left };

    ghost remaining = { λ s. at_most (sets.count 128 (has s.left)) };

    // The lowest member that is left.
    #[inline(always)]
    fn next(&mut self) -> Option<Place> {
        let Some(p) = lowest(self.left) else {
            return None;
        };
        self.left = without(self.left, p);
        Some(p)
    }
}

// The members one after another, the lowest first.
#[inline(always)]
pub fn members(s: PlaceSet) -> Walk
    ensures { result.left ≡ s }
{
    Walk { left: s }
}
