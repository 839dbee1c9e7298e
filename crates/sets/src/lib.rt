// Places of a roster, and sets of the places 0 to 127 in two words: what contracts say of them, and their laws for any roster length. The
// functions stand in `places`.
// A position in a roster, from 0 (document 01: a place).
#![tactic(auto)]

#[derive(Clone, Copy, Debug, PartialEq, Eq)]
pub struct Place(pub usize);

// A set of places, by value: the places 0 to 63 in `low`, 64 to 127 in `high`. A place of 128 or more is in no set.
#[derive(Clone, Copy, Debug, PartialEq, Eq)]
pub struct PlaceSet {
    pub low: u64,
    pub high: u64,
}
