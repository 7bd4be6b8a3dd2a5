// Byte readers: some bytes, or a number, at any offset of a byte slice, in either byte order. What does not lie
// whole inside the slice is told as missing.

#![tactic(auto)]

ghost use Rattle.std.specs.Prelude.{◌≡◌, ℕ};
ghost use Rattle.std.specs.Float.{binary32};
ghost use Rattle.std.specs.Float.Ieee.{of_bits};
ghost use Rattle.std.specs.Option.{option_copied};
ghost use Rattle.fields.specs.Number.{field, part_at};
ghost use Rattle.fields.specs.Signed.{signed};

// Which byte of a number comes first: the least significant one, or the most significant one, as in
// the headers of Ethernet, IP and UDP.
#[derive(Clone, Copy, Debug, PartialEq, Eq)]
pub enum ByteOrder {
    Little,
    Big,
}

// A number that takes a fixed count of bytes.
pub trait Field: Copy {
    ghost width: { ℕ };

    // The number whose bytes have this value as an unsigned one.
    ghost of_unsigned: { ℕ → Self };

    fn read(data: &[u8], off: usize, order: ByteOrder) -> Option<Self>
        ensures { result ≡ field of_unsigned order width «data».now off };
}

// A body for each width: std's `from_le_bytes` is no method of a trait, and an impl may not come from a macro of
// ours. And a match in each: put in order first, the bytes are no longer one load for LLVM.
impl Field for u16 {
    ghost width = { 2 };

    ghost of_unsigned = { λ n. n };

    fn read(data: &[u8], off: usize, order: ByteOrder) -> Option<u16> {
        let bytes = *bytes_at::<2>(data, off)?;
        Some(match order {
            ByteOrder::Little => u16::from_le_bytes(bytes),
            ByteOrder::Big => u16::from_be_bytes(bytes),
        })
    }
}

impl Field for u32 {
    ghost width = { 4 };

    ghost of_unsigned = { λ n. n };

    fn read(data: &[u8], off: usize, order: ByteOrder) -> Option<u32> {
        let bytes = *bytes_at::<4>(data, off)?;
        Some(match order {
            ByteOrder::Little => u32::from_le_bytes(bytes),
            ByteOrder::Big => u32::from_be_bytes(bytes),
        })
    }
}

impl Field for u64 {
    ghost width = { 8 };

    ghost of_unsigned = { λ n. n };

    fn read(data: &[u8], off: usize, order: ByteOrder) -> Option<u64> {
        let bytes = *bytes_at::<8>(data, off)?;
        Some(match order {
            ByteOrder::Little => u64::from_le_bytes(bytes),
            ByteOrder::Big => u64::from_be_bytes(bytes),
        })
    }
}

impl Field for i16 {
    ghost width = { 2 };

    ghost of_unsigned = { signed 16 };

    fn read(data: &[u8], off: usize, order: ByteOrder) -> Option<i16> {
        let n = u16::read(data, off, order)?;
        Some(n.cast_signed())
    }
}

impl Field for i32 {
    ghost width = { 4 };

    ghost of_unsigned = { signed 32 };

    fn read(data: &[u8], off: usize, order: ByteOrder) -> Option<i32> {
        let n = u32::read(data, off, order)?;
        Some(n.cast_signed())
    }
}

impl Field for f32 {
    ghost width = { 4 };

    ghost of_unsigned = { of_bits binary32 };

    fn read(data: &[u8], off: usize, order: ByteOrder) -> Option<f32> {
        let bits = u32::read(data, off, order)?;
        Some(f32_from_bits(bits))
    }
}

// The bytes from a place on, where so many are there.
#[tactic(auto, unfolding(crate::specs::Number::part_at))]
pub fn bytes_at<const N: usize>(data: &[u8], off: usize) -> Option<&[u8; N]>
    ensures { option_copied result ≡ part_at N «data».now off }
{
    data.get(off..)?.first_chunk()
}

// The f32 with this pattern. `f32::from_bits` is undefined at a NaN, so a NaN is made by a
// division, and which of its patterns that has is open.
pub fn f32_from_bits(bits: u32) -> f32
    ensures { result ≡ of_bits binary32 bits }
{
    if 0x7f80_0000 < bits % 0x8000_0000 {
        0.0 / 0.0
    } else {
        f32::from_bits(bits)
    }
}
