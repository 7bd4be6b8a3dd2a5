// One tuple struct for each unit of the source, and the one place where each becomes metres, degrees or radians.
// Each method has the operations of lidar.rs, in its order, and each operation rounds once.

#![tactic(auto)]

ghost use Rattle.std.specs.Prelude.{◌≡◌, pos};
ghost use Rattle.std.specs.Float.{binary32};
ghost use Rattle.std.specs.Float.Ieee.{of_int};
ghost use Rattle.units.specs.Conversions.{
  metres_of_two_millimetres,
  metres_of_millimetres,
  metres_of_ten_millimetres,
  degrees_by_division,
  degrees_by_product,
  radians_of_ticks,
};

// A Velodyne distance, in counts of 2 mm.
#[derive(Clone, Copy, Debug, PartialEq, Eq)]
pub struct TwoMillimetres(pub u16);

// A Livox coordinate.
#[derive(Clone, Copy, Debug, PartialEq, Eq)]
pub struct Millimetres(pub i32);

// A Livox depth or an Ouster range.
#[derive(Clone, Copy, Debug, PartialEq, Eq)]
pub struct UnsignedMillimetres(pub u32);

// An LVX2 coordinate, in counts of 10 mm.
#[derive(Clone, Copy, Debug, PartialEq, Eq)]
pub struct TenMillimetres(pub i16);

// A Velodyne azimuth, or a Livox zenith angle or azimuth.
#[derive(Clone, Copy, Debug, PartialEq, Eq)]
pub struct HundredthsOfDegree(pub u16);

// An Ouster encoder's count, 90,112 to a turn.
#[derive(Clone, Copy, Debug, PartialEq, Eq)]
pub struct EncoderTicks(pub u32);

// How far a belt moved, in pulses of its encoder.
#[derive(Clone, Copy, Debug, PartialEq, Eq)]
pub struct BeltPulses(pub i32);

// The f32 with bits 0x40C90FDB.
const TAU: f32 = 6.2831855;

// The f32 nearest to n, by the sum that the scope names, for u32 and for i32. The halves and the product are
// exact, so that only the sum rounds.
pub fn u32_to_f32(n: u32) -> f32
    ensures { result ≡ of_int binary32 (pos n) }
{
    let high = (n >> 16) as u16;
    let low = (n % 65536) as u16;
    high as f32 * 65536.0 + low as f32
}

// The same of a signed n. The shift rounds down, so that the lower half is not negative.
pub fn i32_to_f32(n: i32) -> f32
    ensures { result ≡ of_int binary32 n }
{
    let floor = (n >> 16) as i16;
    let rest = (n & 65535) as u16;
    floor as f32 * 65536.0 + rest as f32
}

impl TwoMillimetres {
    pub fn metres(self) -> f32
        ensures { result ≡ metres_of_two_millimetres self.0 }
    {
        self.0 as f32 * 0.002
    }
}

// This and the next read alike, and stay two: a type for each unit keeps one from being taken for another.
impl Millimetres {
    pub fn metres(self) -> f32
        ensures { result ≡ metres_of_millimetres self.0 }
    {
        i32_to_f32(self.0) / 1000.0
    }
}

impl UnsignedMillimetres {
    pub fn metres(self) -> f32
        ensures { result ≡ metres_of_millimetres (pos self.0) }
    {
        u32_to_f32(self.0) / 1000.0
    }
}

impl TenMillimetres {
    pub fn metres(self) -> f32
        ensures { result ≡ metres_of_ten_millimetres self.0 }
    {
        self.0 as f32 * 0.01
    }
}

// The quotient and the product differ in bits.
impl HundredthsOfDegree {
    // Velodyne's.
    pub fn degrees_by_division(self) -> f32
        ensures { result ≡ degrees_by_division self.0 }
    {
        self.0 as f32 / 100.0
    }

    // Livox's.
    pub fn degrees_by_product(self) -> f32
        ensures { result ≡ degrees_by_product self.0 }
    {
        self.0 as f32 * 0.01_f32
    }
}

impl EncoderTicks {
    pub fn radians(self) -> f32
        ensures { result ≡ radians_of_ticks self.0 }
    {
        u32_to_f32(self.0) / 90112.0 * TAU
    }
}
