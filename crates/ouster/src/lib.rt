// The Ouster reader: polar points from captures of the legacy packet profile.

#![tactic(auto)]

mod decoder;
mod read;

pub use ouster_packet::decode_ouster_packet;
pub use ouster_settings::{OusterSettings, Sensor};
pub use read::{read_ouster, read_ouster_as};
