// What a history is, what the accepted records say of each place, and that the rule computes just that. The definitions
// stand in specs/, the theorems in proofs/; of code there is only the kind.
// Document 01's kind of a record: whether a controller knew of every stop before its own (full), or only of those that it
// heard itself (short).
#![tactic(auto)]

#[derive(Clone, Copy, Debug, PartialEq, Eq)]
pub enum Kind {
    Full = 1,
    Short = 2,
}
