// The stored readings that are placed.

use fields::{ByteOrder, Field};
use lidar::{HundredthsOfDegree, Millimetres, StoredReading, TenMillimetres, UnsignedMillimetres};

pub(crate) const SPHERICAL: StoredReading = StoredReading::Spherical {
    depth: UnsignedMillimetres(1000),
    zenith: HundredthsOfDegree(9000),
    azimuth: HundredthsOfDegree(0),
};

pub(crate) const FLOAT: StoredReading = StoredReading::Float(0x3f800000, 0, 0);

// A function for each unit, since each has a tuple struct of its own, and numbers of its own width.
pub(crate) fn millimetres(data: &[u8]) -> StoredReading {
    let Some(x) = i32::read(data, 0, ByteOrder::Little) else {
        return SPHERICAL;
    };
    StoredReading::Millimetres(Millimetres(x), Millimetres(0), Millimetres(0))
}

pub(crate) fn ten_millimetres(data: &[u8]) -> StoredReading {
    let Some(x) = i16::read(data, 0, ByteOrder::Little) else {
        return SPHERICAL;
    };
    StoredReading::TenMillimetres(TenMillimetres(x), TenMillimetres(0), TenMillimetres(0))
}
