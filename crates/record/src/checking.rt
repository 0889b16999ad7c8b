// The checks: 1 to 6 of a record's head, and 7 to 9 and 20 in one pass over its fixes.
ghost use Rattle.std.specs.Prelude.{◌≡◌, ◌-◌, ◌≤◌, List, [], ◌∷◌, ◌++◌, IfOk};
ghost use Rattle.std.proofs.Math.Option.{none};
ghost use Rattle.distance.specs.Fix.{Fix as Plain, fix_of};
ghost use Rattle.distance.specs.Silence.{silent};
ghost use Rattle.format.specs.Kinds.{Kind as Layout, layout};
ghost use Rattle.format.specs.Fixes.{nth};
ghost use Rattle.format.specs.Format.{each};
ghost use Rattle.record.specs.Checks.{Asked, sentence, first, fix_checks, head_refusal, read_refusal, outside, fix_outside, other_silence, IsAccepted};
ghost use Rattle.record.specs.Answers.{refused};
ghost use Rattle.record.specs.Laws.Scan.{Scanned};
ghost use Rattle.record.specs.Laws.Trail.{FixesOf};

use crate::{Refusal, Scan};
use distance::{Coordinate, Fix, silent};
use format::{
    Fixes, Kind, count_at, kind_at, known_kind, length_at, limit_of, mark_at, record_length, top_of,
};

// Whether a coordinate is outside a kind's limit. They are compared in the coordinate's own 32 bits, of which the machine takes several at once; nothing is outside
// a limit that these don't hold.
pub fn outside(c: Coordinate, limit: u32) -> bool
    ensures { result ≡ outside limit c.0 }
{
    if 2147483647 < limit {
        return false;
    }
    let far = limit as i32;
    (c.0 < 0 - far) | (far < c.0)
}

fn fix_outside(f: Fix, limit: u32) -> bool
    ensures { result ≡ fix_outside limit (fix_of f) }
{
    outside(f.x, limit) | outside(f.y, limit)
}

fn other_silence(f: Fix) -> bool
    ensures { result ≡ other_silence (fix_of f) }
{
    let s = f.silence;
    !((s.0 == 0) | (s.0 == 1))
}

// The pass begins with the first fix ..
pub fn scan_first(f: Fix, limit: u32) -> Scan
    ensures { Scanned limit (fix_of f) [] result }
{
    let t = f.t;
    Scan {
        outside: fix_outside(f, limit),
        early: false,
        other: other_silence(f),
        first: t,
        last: t,
        silent: silent(f),
    }
}

// .. goes on with each later one ..
pub fn scan_next(s: Scan, f: Fix, limit: u32) -> Scan
    ensures { (a : Plain) (l : List Plain) → Scanned limit a l s → Scanned limit a (l ++ fix_of f ∷ []) result }
{
    let t = f.t;
    let first = s.first;
    let last = s.last;
    Scan {
        outside: s.outside | fix_outside(f, limit),
        early: s.early | (t.0 <= last.0),
        other: s.other | other_silence(f),
        first,
        last: t,
        silent: silent(f),
    }
}

// .. and says the first of checks 7 to 9 and 20 that turns the fixes away.
pub fn scan_says(s: Scan) -> Result<(), Refusal>
    ensures { (K : Layout) (q : Asked) (a : Plain) (l : List Plain) → q.trail_fixes ≡ a ∷ l → Scanned K.limit a l s → refused result ≡ first (sentence K q) fix_checks }
{
    if s.outside {
        return Err(Refusal::Misplaced);
    }
    if s.early {
        return Err(Refusal::Unordered);
    }
    let first = s.first;
    let last = s.last;
    if (first.0 as u64) + 65535 < (last.0 as u64) {
        return Err(Refusal::LongSpan);
    }
    if s.other | s.silent {
        return Err(Refusal::BadSilence);
    }
    Ok(())
}

// Checks 1 to 6, of a record's head.
fn head_says(b: &[u8]) -> Result<(), Refusal>
    ensures { refused result ≡ head_refusal b.now }
{
    let lent = b.len();
    if lent < 10 {
        return Err(Refusal::FewBytes);
    }
    if !known_kind(b) {
        return Err(Refusal::OtherKind);
    }
    let kind = kind_at(b);
    let n = count_at(b);
    if n == 0 {
        return Err(Refusal::BadCount);
    }
    if 4096 < n {
        return Err(Refusal::BadCount);
    }
    let length = length_at(b);
    if length != record_length(kind, n as u32) {
        return Err(Refusal::BadLength);
    }
    if lent < length as usize {
        return Err(Refusal::ShortRecord);
    }
    let mark = mark_at(b);
    if mark <= top_of(kind) {
        return Ok(());
    }
    if mark == 65535 {
        return Ok(());
    }
    Err(Refusal::BadMark)
}

// The pass over some fixes. It is made a part of `scan_all`, where the kind is known.
#[inline(always)]
fn scan_each(fixes: Fixes<'_>) -> Scan
    requires { (1 ≤ fixes.count) × (fixes.count ≤ 4096) }
    ensures { Scanned (layout fixes.entry.kind).limit (nth fixes.entry 0) (each (nth fixes.entry) 1 (fixes.entry.count - 1)) result }
{
    let limit = limit_of(fixes.kind);
    let mut s = scan_first(fixes.at(0), limit);
    for k in 1..fixes.count {
        s = scan_next(s, fixes.at(k), limit);
    }
    s
}

// With each kind called by its name the compiler makes the pass of each by itself, over several fixes at once.
fn scan_all(fixes: Fixes<'_>) -> Scan
    requires { (1 ≤ fixes.count) × (fixes.count ≤ 4096) }
    ensures { Scanned (layout fixes.entry.kind).limit (nth fixes.entry 0) (each (nth fixes.entry) 1 (fixes.entry.count - 1)) result }
{
    match fixes.kind {
        Kind::Trail => scan_each(fixes.named(Kind::Trail)),
        Kind::MillimetreTrail => scan_each(fixes.named(Kind::MillimetreTrail)),
        Kind::SilenceTrail => scan_each(fixes.named(Kind::SilenceTrail)),
    }
}

// The fixes of a record whose head is in order.
fn fixes_of(b: &[u8]) -> Fixes<'_>
    requires { head_refusal b.now ≡ none }
    ensures { FixesOf result b.now }
{
    Fixes {
        bytes: b,
        kind: kind_at(b),
        count: count_at(b),
    }
}

// The fixes of an accepted record.
pub fn fixes_in(b: &[u8]) -> Fixes<'_>
    requires { IsAccepted b.now }
    ensures { FixesOf result b.now }
{
    fixes_of(b)
}

// Checks 1 to 9 and 20, each of the whole record before the next.
pub fn check(b: &[u8]) -> Result<(), Refusal>
    ensures { refused result ≡ read_refusal b.now }
{
    head_says(b)?;
    scan_says(scan_all(fixes_of(b)))
}

// The same checks, and the fixes of a record that they accept.
pub fn accepted(b: &[u8]) -> Result<Fixes<'_>, Refusal>
    ensures refusal { refused result ≡ read_refusal b.now }
    ensures fixes { IfOk result (λ s. FixesOf s b.now) }
{
    check(b)?;
    Ok(fixes_of(b))
}
