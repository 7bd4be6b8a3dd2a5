// A record and its rule, in two readings: from the bytes of a record to its UDP payload.

#![tactic(auto)]

mod reading;
mod rule;
mod time;

pub use reading::Reading;
pub use rule::{Part, PassedOver, judge};
pub use time::{TimeUnit, Timestamp};

// A record of a capture: where its header stands in the data, where its captured bytes start, how many they are, and when they were captured.
#[derive(Clone, Copy, Debug, PartialEq, Eq)]
pub struct Record {
    pub header: usize,
    pub body: usize,
    pub len: usize,
    pub time: Timestamp,
}
