// Numbers in bytes: little-endian, coordinates in two's complement.
ghost use Rattle.std.specs.Prelude.{◌≡◌, ◌+◌, ◌<◌, ◌≤◌, length};
ghost use Rattle.std.proofs.lemmas.List.Edits.{sets};
ghost use Rattle.format.specs.Bytes.{InBytes, number_at, bytes_of, signed, unsigned};
ghost use Rattle.format.specs.Kinds.{layout};

use crate::Kind;
use distance::Coordinate;

// The number of two bytes. It and the next are a line each over std: one for both sizes would have a trait for them.
pub(crate) fn two_at(b: &[u8], at: usize) -> u32
    requires { at + 2 ≤ length b.now }
    ensures { (result ≡ number_at b.now at 2) × (result < 65536) }
{
    u16::from_le_bytes([b[at], b[at + 1]]) as u32
}

// The number of four bytes.
pub(crate) fn four_at(b: &[u8], at: usize) -> u32
    requires { at + 4 ≤ length b.now }
    ensures { result ≡ number_at b.now at 4 }
{
    u32::from_le_bytes([b[at], b[at + 1], b[at + 2], b[at + 3]])
}

// The coordinate at a place, of as many bytes as its kind's have. Two bytes are 16 bits first and 32 after that, which is one instruction.
pub(crate) fn coordinate_at(b: &[u8], kind: Kind, at: usize) -> Coordinate
    requires { at + (layout kind).width ≤ length b.now }
    ensures { result.0 ≡ signed (layout kind).width (number_at b.now at (layout kind).width) }
{
    Coordinate(match kind {
        Kind::Trail | Kind::SilenceTrail => (two_at(b, at) as u16).cast_signed() as i32,
        Kind::MillimetreTrail => four_at(b, at).cast_signed(),
    })
}

// N bytes, put from a place on.
fn put<const N: usize>(out: &mut [u8], at: usize, bytes: &[u8; N])
    requires { at + N ≤ length out.old }
    ensures { out.new ≡ sets out.old at bytes.now }
{
    out[at..at + N].copy_from_slice(bytes);
}

// Two bytes of a number.
pub(crate) fn put_two(out: &mut [u8], at: usize, n: u32)
    requires { at + 2 ≤ length out.old }
    ensures { out.new ≡ sets out.old at (bytes_of 2 n) }
{
    put(out, at, &((n % 65536) as u16).to_le_bytes());
}

// Four bytes of a number.
pub(crate) fn put_four(out: &mut [u8], at: usize, n: u32)
    requires { at + 4 ≤ length out.old }
    ensures { out.new ≡ sets out.old at (bytes_of 4 n) }
{
    put(out, at, &n.to_le_bytes());
}

// A coordinate, in as many bytes as its kind's have.
pub(crate) fn put_coordinate(out: &mut [u8], kind: Kind, at: usize, c: Coordinate)
    requires { (at + (layout kind).width ≤ length out.old) × InBytes (layout kind).width c.0 }
    ensures { out.new ≡ sets out.old at (bytes_of (layout kind).width (unsigned (layout kind).width c.0)) }
{
    match kind {
        Kind::Trail | Kind::SilenceTrail => put(out, at, &(c.0 as i16).to_le_bytes()),
        Kind::MillimetreTrail => put(out, at, &c.0.to_le_bytes()),
    }
}
