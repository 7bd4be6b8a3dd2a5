// When a record was captured, as its capture states it.

ghost use Rattle.std.specs.Prelude.{◌≡◌};
ghost use Rattle.record_rule.specs.Time.{unit_number, time_numbers};

// The unit of a fraction.
#[derive(Clone, Copy, Debug, Default, PartialEq, Eq)]
pub enum TimeUnit {
    #[default]
    Microseconds,
    Nanoseconds,
}

// Seconds since 1970, and the fraction of a second as stored: it may be a second or more.
#[derive(Clone, Copy, Debug, Default, PartialEq, Eq)]
pub struct Timestamp {
    pub seconds: u32,
    pub fraction: u32,
    pub unit: TimeUnit,
}

impl TimeUnit {
    // The number that C and the lists of cases have for it. A method, since `u8::from` would not say which number that is.
    pub fn number(self) -> u8
        ensures { result ≡ unit_number self }
    {
        match self {
            TimeUnit::Microseconds => 0,
            TimeUnit::Nanoseconds => 1,
        }
    }
}

impl Timestamp {
    // Tells a time through lent numbers, as C lends them.
    pub fn tell(self, seconds: &mut u32, fraction: &mut u32, unit: &mut u8)
        ensures { (seconds.new, fraction.new, unit.new) ≡ time_numbers self }
    {
        *seconds = self.seconds;
        *fraction = self.fraction;
        *unit = self.unit.number();
    }
}
