// What the test programs have in common: what is printed, the cases counted, each outcome as a number, parts of lists and buffers, and records
// of their own making. It stands on types alone, and calls no function that is tried.
#![tactic(auto)]

pub mod outcomes;
pub mod parts;
pub mod say;
pub mod stored;
pub mod tallies;
pub mod written;
