// The numbers of a record, as a caller asks for them.

ghost use Rattle.std.specs.Prelude.{◌≡◌};
ghost use Rattle.std.proofs.Common.{refl};

use fields::Field;

// A number of a record: an f32, or its u32 pattern.
pub trait RecordNumber: Field {
    ghost takes_four_bytes: { Self.width ≡ 4 };
}

impl RecordNumber for f32 {
    ghost takes_four_bytes = { refl };
}

impl RecordNumber for u32 {
    ghost takes_four_bytes = { refl };
}
