// The Velodyne reader: polar points from captures of VLP-16, HDL-32E and VLP-32C sensors.

#![tactic(auto)]

mod decoder;
mod read;

pub use read::{read_velodyne, read_velodyne_as};
pub use velodyne_angles::{VelodyneModel, detect_velodyne_model};
pub use velodyne_packet::decode_velodyne_packet;
