// The numbers of each kind, and the kind that stands in a head. Each number is a match of its own: a table of structs would say no more, and be looked up.
ghost use Rattle.std.specs.Prelude.{◌≡◌, ◌^◌, ◌<◌, ◌≤◌, length};
ghost use Rattle.format.specs.Kinds.{has_silences, kinds, coded, layout, units, Decodes};
ghost use Rattle.format.specs.Format.{kind_field, kind_of, record_length};

use crate::numbers::two_at;
use crate::{Kind, Unit};

// A number that no kind has.
#[derive(Clone, Copy, PartialEq, Eq)]
pub struct UnknownKind(pub u32);

impl TryFrom<u32> for Kind {
    type Error = UnknownKind;

    ghost try_from_gives = { Decodes };

    fn try_from(code: u32) -> Result<Self, UnknownKind> {
        match code {
            1 => Ok(Kind::Trail),
            2 => Ok(Kind::MillimetreTrail),
            3 => Ok(Kind::SilenceTrail),
            _ => Err(UnknownKind(code)),
        }
    }
}

impl From<Kind> for u32 {
    ghost from_gives = { λ kind code. code ≡ (layout kind).code };

    fn from(kind: Kind) -> u32 {
        match kind {
            Kind::Trail => 1,
            Kind::MillimetreTrail => 2,
            Kind::SilenceTrail => 3,
        }
    }
}

// Whether some kind has the number that stands in the kind field.
pub fn known_kind(b: &[u8]) -> bool
    requires { 10 ≤ length b.now }
    ensures { result ≡ coded kinds (kind_field b.now) }
{
    Kind::try_from(two_at(b, 4)).is_ok()
}

// The kind of lent bytes; of a number that no kind has, the first. By the numbers, since after `try_from` the compiler no longer writes the loops over fixes out for
// each kind, and a record's check takes three times as long.
pub fn kind_at(b: &[u8]) -> Kind
    requires { 10 ≤ length b.now }
    ensures { layout result ≡ kind_of b.now }
{
    match two_at(b, 4) {
        2 => Kind::MillimetreTrail,
        3 => Kind::SilenceTrail,
        _ => Kind::Trail,
    }
}

// Whether a kind's fixes say that silence follows.
pub fn has_silences(kind: Kind) -> bool
    ensures { result ≡ has_silences (layout kind) }
{
    match kind {
        Kind::Trail | Kind::MillimetreTrail => false,
        Kind::SilenceTrail => true,
    }
}

// The bytes of a fix.
pub fn size_of(kind: Kind) -> u32
    ensures { result ≡ (layout kind).size }
{
    match kind {
        Kind::Trail => 8,
        Kind::MillimetreTrail => 12,
        Kind::SilenceTrail => 9,
    }
}

// The bytes of each of its coordinates.
pub(crate) fn width_of(kind: Kind) -> usize
    ensures { result ≡ (layout kind).width }
{
    match kind {
        Kind::Trail | Kind::SilenceTrail => 2,
        Kind::MillimetreTrail => 4,
    }
}

// The length of a record of n fixes, which is also where fix n begins.
pub fn record_length(kind: Kind, n: u32) -> u32
    requires { n < 65536 }
    ensures { result ≡ record_length (layout kind) n }
{
    10 + size_of(kind) * n
}

// Where fix k begins, in bytes that may be as long as a slice can be. (`record_length` is asked for at most 65,535 fixes, by callers who count in 32 bits.)
pub(crate) fn place_of(kind: Kind, k: usize) -> usize
    requires { record_length (layout kind) k < 2 ^ 64 }
    ensures { result ≡ record_length (layout kind) k }
{
    10 + size_of(kind) as usize * k
}

// How far from 0 its places may be.
pub fn limit_of(kind: Kind) -> u32
    ensures { result ≡ (layout kind).limit }
{
    match kind {
        Kind::Trail | Kind::SilenceTrail => 16000,
        Kind::MillimetreTrail => 160000,
    }
}

// Its greatest tolerance.
pub fn top_of(kind: Kind) -> u32
    ensures { result ≡ (layout kind).top }
{
    match kind {
        Kind::Trail | Kind::SilenceTrail => 32000,
        Kind::MillimetreTrail => 60000,
    }
}

// How many of its unit make a centimetre.
pub fn per_centimetre(kind: Kind) -> u32
    ensures { result ≡ (layout kind).per_centimetre }
{
    match kind {
        Kind::Trail | Kind::SilenceTrail => 1,
        Kind::MillimetreTrail => 10,
    }
}

// Its unit.
pub fn unit_of(kind: Kind) -> Unit
    ensures { units result ≡ (layout kind).per_centimetre }
{
    match kind {
        Kind::Trail | Kind::SilenceTrail => Unit::Centimetres,
        Kind::MillimetreTrail => Unit::Millimetres,
    }
}
