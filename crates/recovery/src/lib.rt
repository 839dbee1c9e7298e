// A recovery, under one name.
#![tactic(auto)]

pub use answers::{Answer, Fetching, Reply, Showing};
pub use askings::{ask, list, settled, to_fetch, unmourned, unmourned_absent, unmourned_count};
pub use calls::{Gave, Offered, Opened, Recovery};
pub use offerings::{offer, offer_read};
pub use openings::{find, give, open};
pub use refusals::Refusal;
pub use showings::{check, show, write};
