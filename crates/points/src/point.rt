// A point as code holds it.

ghost use Rattle.std.specs.Prelude.{◌≡◌, [], ◌∷◌};
ghost use Rattle.points.specs.Point.{kind, coordinates};

// Three numbers, Cartesian (x, y, z in metres) or polar (range in metres, elevation, azimuth, in
// degrees unless a reader says otherwise): f32 values, or their u32 patterns, in which a NaN keeps
// its bits.
#[derive(Clone, Copy, Debug, PartialEq)]
pub enum Point<T> {
    Cartesian(T, T, T),
    Polar(T, T, T),
}

impl<T: Copy> Point<T> {
    // What the lent byte slice receives.
    pub fn kind(self) -> u8
        ensures { result ≡ kind self }
    {
        match self {
            Point::Cartesian(_, _, _) => 1,
            Point::Polar(_, _, _) => 2,
        }
    }

    // What the lent slice of numbers receives, in this order.
    pub fn numbers(self) -> (T, T, T)
        ensures { coordinates self ≡ result.0 ∷ result.1 ∷ result.2 ∷ [] }
    {
        match self {
            Point::Cartesian(x, y, z) => (x, y, z),
            Point::Polar(range, elevation, azimuth) => (range, elevation, azimuth),
        }
    }
}
