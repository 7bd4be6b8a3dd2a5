// What others use: the calls on files and captures, from the crates that hold them.

#![tactic(auto)]

pub use capture::{
    ByteOrder, Cursor, Place, Places, Reading, RecordFormat, TimeUnit, Timestamp, open, open_as,
    places_from,
};
pub use kitti::{RecordNumber, read_kitti};
pub use livox::read_livox;
pub use livox_form::{Form, Lvx2DataType, LvxDataType};
pub use livox_package::PointNumber;
pub use livox_rank::stored_reading;
pub use livox_stored::StoredReading;
pub use ouster::{OusterSettings, read_ouster, read_ouster_as};
pub use payloads::{TimedPayload, payload, payload_as, payload_place, payload_place_as};
pub use placing::{Belt, BeltCount, BeltDatum, PulseLength, place, pulses};
pub use placing_in_file::place_in_file;
pub use points::{Counts, Refusal};
pub use units::{BeltPulses, HundredthsOfDegree, Millimetres, TenMillimetres, UnsignedMillimetres};
pub use velodyne::{
    VelodyneModel, decode_velodyne_packet, detect_velodyne_model, read_velodyne, read_velodyne_as,
};
