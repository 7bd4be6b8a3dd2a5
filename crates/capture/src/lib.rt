// Captures: a libpcap savefile walked payload by payload, in two readings.

#![tactic(auto)]

mod walk;

pub use fields::ByteOrder;
pub use record_rule::{Reading, TimeUnit, Timestamp};
pub use savefile::RecordFormat;
pub use walk::{Cursor, Place, Places, open, open_as, places_from};
