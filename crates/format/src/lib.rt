// The format of a trail record: where the head's fields and the fixes stand in its bytes. What they may say is the record layer's to check.
// The functions that read ask for the bytes that they read, and those that store for the bytes that they store to,
// but `head_of`, which asks nothing. A place stands beside the bytes: a position that the caller asks for, and no length.
#![tactic(auto)]

mod fixes;
mod kinds;
mod numbers;

ghost use Rattle.std.specs.Prelude.{◌≡◌, ◌+◌, ◌<◌, ◌≤◌, suc, length};
ghost use Rattle.std.proofs.lemmas.List.Edits.{sets};
ghost use Rattle.distance.specs.Fix.{fix_of};
ghost use Rattle.format.specs.Bytes.{InBytes, number_at};
ghost use Rattle.format.specs.Kinds.{layout};
ghost use Rattle.format.specs.Format.{length_field, kind_field, mark_field, count_field, of_head, record_length, fix_at, fix_bytes, header_bytes};

use crate::kinds::{place_of, width_of};
use crate::numbers::{coordinate_at, four_at, put_coordinate, put_four, put_two, two_at};
use distance::{Fix, Seconds, Silence};
pub use fixes::Fixes;
pub use kinds::{
    UnknownKind, has_silences, kind_at, known_kind, limit_of, per_centimetre, record_length,
    size_of, top_of, unit_of,
};

// The kinds of record: in centimetres, in millimetres, and in centimetres with silences. What each has otherwise is behind the matches of this crate.
#[derive(Clone, Copy, PartialEq, Eq)]
pub enum Kind {
    Trail,
    MillimetreTrail,
    SilenceTrail,
}

// The unit of a record's places and of all lengths that are asked of it.
#[derive(Clone, Copy, PartialEq, Eq)]
pub enum Unit {
    Centimetres,
    Millimetres,
}

// What a record's head says of it. The kind is the number that stands there, which may be no kind's: `head_of` is asked of bytes that no one has checked.
#[derive(Clone, Copy, PartialEq, Eq)]
pub struct Head {
    pub kind: u32,
    pub count: u32,
    pub mark: u32,
}

// What a fix says of silence, whose byte stands at a place; 0 where its kind has none.
fn silence_at(b: &[u8], kind: Kind, at: usize) -> Silence
    requires { at + (layout kind).silence_width ≤ length b.now }
    ensures { result.0 ≡ number_at b.now at (layout kind).silence_width }
{
    Silence(if has_silences(kind) { b[at] } else { 0 })
}

// The fix at position k of a record whose bytes reach that far.
pub fn fix_at(b: &[u8], kind: Kind, k: usize) -> Fix
    requires { record_length (layout kind) (suc k) ≤ length b.now }
    ensures { fix_of result ≡ fix_at (layout kind) b.now k }
{
    let at = place_of(kind, k);
    let width = width_of(kind);
    Fix {
        t: Seconds(four_at(b, at)),
        x: coordinate_at(b, kind, at + 4),
        y: coordinate_at(b, kind, at + 4 + width),
        silence: silence_at(b, kind, at + 4 + width + width),
    }
}

// How long the record's head says it is.
pub fn length_at(b: &[u8]) -> u32
    requires { 10 ≤ length b.now }
    ensures { result ≡ length_field b.now }
{
    four_at(b, 0)
}

// How many fixes the record's head says there are.
pub fn count_at(b: &[u8]) -> usize
    requires { 10 ≤ length b.now }
    ensures { (result ≡ count_field b.now) × (result < 65536) }
{
    two_at(b, 8) as usize
}

// The mark that the record's head says.
pub fn mark_at(b: &[u8]) -> u32
    requires { 10 ≤ length b.now }
    ensures { (result ≡ mark_field b.now) × (result < 65536) }
{
    two_at(b, 6)
}

// What the head of a record says, whoever made its bytes.
pub fn head_of(b: &[u8]) -> Head
    ensures { (result.kind ≡ of_head kind_field b.now)
        × (result.count ≡ of_head count_field b.now)
        × (result.mark ≡ of_head mark_field b.now) }
{
    if b.len() < 10 {
        return Head {
            kind: 0,
            count: 0,
            mark: 0,
        };
    }
    Head {
        kind: two_at(b, 4),
        count: two_at(b, 8),
        mark: two_at(b, 6),
    }
}

// A fix that its kind's bytes can say, at a place of the output.
pub fn put_fix(out: &mut [u8], kind: Kind, at: usize, f: Fix)
    requires { (at + (layout kind).size ≤ length out.old)
        × InBytes (layout kind).width f.x.0
        × InBytes (layout kind).width f.y.0 }
    ensures { out.new ≡ sets out.old at (fix_bytes (layout kind) (fix_of f)) }
{
    let width = width_of(kind);
    put_four(out, at, f.t.0);
    put_coordinate(out, kind, at + 4, f.x);
    put_coordinate(out, kind, at + 4 + width, f.y);
    if has_silences(kind) {
        out[at + 4 + width + width] = f.silence.0;
    }
}

// The fix at position k, put at position w, with all that it says.
pub fn move_fix(b: &mut [u8], kind: Kind, k: usize, w: usize)
    requires { (record_length (layout kind) (suc k) ≤ length b.old)
        × (record_length (layout kind) (suc w) ≤ length b.old) }
    ensures { b.new
        ≡ sets b.old (record_length (layout kind) w) (fix_bytes (layout kind) (fix_at (layout kind) b.old k)) }
{
    let f = fix_at(b, kind, k);
    put_fix(b, kind, place_of(kind, w), f);
}

// The head of a record of n fixes.
pub fn put_head(out: &mut [u8], kind: Kind, n: u32, mark: u32)
    requires { (n ≤ 4096) × (10 ≤ length out.old) }
    ensures { out.new ≡ sets out.old 0 (header_bytes (layout kind) mark n) }
{
    put_four(out, 0, record_length(kind, n));
    put_two(out, 4, u32::from(kind));
    put_two(out, 6, mark);
    put_two(out, 8, n);
}
