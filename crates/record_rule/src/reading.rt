// How a capture is read: as the Rust reads it, or as the savefile format says.

ghost use Rattle.std.specs.Prelude.{◌≡◌};
ghost use Rattle.record_rule.specs.Reading.{usual};

#[derive(Clone, Copy, Debug, PartialEq, Eq)]
pub enum Reading {
    Rust,
    Savefile,
}

impl Reading {
    // The reading of a caller who names none. It is no Default: `usual` is its name in the definitions and at its callers.
    pub fn usual() -> Self
        ensures { result ≡ usual }
    {
        Reading::Rust
    }
}
