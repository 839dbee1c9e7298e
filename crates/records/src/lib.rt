// Stored records, under one name: reading, the ticket desk's too, and a roster in bytes.
#![tactic(auto)]

pub use heads::read_desk;
pub use layouts::{Record, Sight};
pub use readings::{read, read_like, read_lone};
pub use refusals::Refusal;
pub use roster_bytes::{copy_roster, roster_is};
