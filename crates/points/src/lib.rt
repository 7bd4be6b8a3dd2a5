// What every reader hands over: points, laid into lent slices, and an answer. There are two slices, of numbers
// and of kinds, since C lends them so.

#![tactic(auto)]

mod data;
mod lay;
mod point;

pub use answers::{Counts, Refusal};
pub use data::{MAX_DATA_LEN, ShortData, check_len};
pub use lay::{check_room, lacks_room, lay_after, lay_point};
pub use point::Point;
