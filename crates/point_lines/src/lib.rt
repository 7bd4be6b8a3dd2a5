// The lister's line of a point, as bytes.

#![tactic(auto)]

ghost use Rattle.std.specs.Prelude.{◌≡◌, ◌/◌, ◌%◌, ◌<◌};
ghost use Rattle.point_lines.specs.PointLine.{glyph, hex_digits, letter, point_line};

// The line of a point: c or p by its kind, and its three numbers' patterns. It is bytes and has no
// `Display`, since std's laws on what `{x:08x}` writes do not lead to the digits of the definition.
#[tactic(auto, unfolding(crate::specs::PointLine::point_line, crate::specs::PointLine::hex_digits))]
pub fn point_line(kind: u8, x: u32, y: u32, z: u32) -> [u8; 29]
    ensures { result ≡ point_line kind x y z }
{
    let mut line = [b' '; 29];
    line[0] = letter(kind);
    line[2..10].copy_from_slice(&hex(x));
    line[11..19].copy_from_slice(&hex(y));
    line[20..28].copy_from_slice(&hex(z));
    line[28] = b'\n';
    line
}

// Eight lower-case hexadecimal digits, each by its power, as the definition has them. `array::from_fn` was tried: its
// closure takes two clauses of its own, and a proof that a shift makes each power.
#[tactic(auto, unfolding(crate::specs::PointLine::hex_digits))]
pub fn hex(n: u32) -> [u8; 8]
    ensures { result ≡ hex_digits n }
{
    [
        digit(n, 0x1000_0000),
        digit(n, 0x100_0000),
        digit(n, 0x10_0000),
        digit(n, 0x1_0000),
        digit(n, 0x1000),
        digit(n, 0x100),
        digit(n, 0x10),
        digit(n, 1),
    ]
}

#[tactic(auto, unfolding(crate::specs::PointLine::letter))]
fn letter(kind: u8) -> u8
    ensures { result ≡ letter kind }
{
    if kind == 1 { b'c' } else { b'p' }
}

// The digit of n at a power of 16.
fn digit(n: u32, power: u32) -> u8
    requires { 0 < power }
    ensures { result ≡ glyph (n / power % 16) }
{
    let d = (n / power % 16) as u8;
    if d < 10 { b'0' + d } else { b'a' - 10 + d }
}
