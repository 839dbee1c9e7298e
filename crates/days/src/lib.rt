// A day of stops, under one name.
#![tactic(auto)]

pub use day_events::happen;
pub use day_plays::{play, step};
pub use day_records::{open, write};
pub use executions::{Begun, Day, Event, Happened, Played};
pub use refusals::Refusal;
