// The writer over lent fixes, in whatever form they are lent.
ghost use Rattle.std.specs.Prelude.{◌≡◌, ℕ, ◌+◌, ◌-◌, ◌<◌, ◌≤◌, length};
ghost use Rattle.std.proofs.lemmas.List.Edits.{sets};
ghost use Rattle.distance.specs.Fix.{Fix as Plain, Bounded, fix_of};
ghost use Rattle.distance.specs.Laws.All.{All};
ghost use Rattle.format.specs.declared.Kind.{Kind as CodeKind};
ghost use Rattle.format.specs.Kinds.{layout};
ghost use Rattle.format.specs.Format.{record_length, each, all_bytes};
ghost use Rattle.record.specs.Checks.{sentence, first, fix_checks};
ghost use Rattle.record.specs.Answers.{refused};
ghost use Rattle.record.specs.Laws.Scan.{Timed};
ghost use Rattle.writing.specs.Writing.{asked_to_write, Writes};
ghost use Rattle.writing.specs.Answers.{wrote};

use crate::begin_record;
use distance::Fix;
use format::{Kind, limit_of, put_fix, record_length};
use record::{Refusal, scan_first, scan_next, scan_says};

// The fixes of a record that is to be written, by position.
pub(crate) trait Lent: Copy {
    ghost kind: { Self → CodeKind };

    ghost count: { Self → ℕ };

    ghost fix: { Self → ℕ → Plain };

    fn kind(self) -> Kind
        ensures { result ≡ kind self };

    fn count(self) -> usize
        ensures { result ≡ count self };

    fn fix(self, k: usize) -> Fix
        requires { k < count self }
        ensures { fix_of result ≡ fix self k };

    // No fix says more of silence than its kind's bytes can.
    ghost sayable: { (s : Self) (k : ℕ) → (layout (kind s)).silence_width ≡ 0 → (fix s k).silence ≡ 0 };
}

// What checks 7 to 9 and 20 say of the fixes, in one pass over them: nothing, if there are none. (The record layer's pass is compiled for each kind by itself.)
fn scan<L: Lent>(lent: L) -> Result<(), Refusal>
    ensures says { (output : ℕ) → 1 ≤ L.count lent
        → refused result
        ≡ first (sentence (layout (L.kind lent)) (asked_to_write (each (L.fix lent) 0 (L.count lent)) output)) fix_checks }
    ensures timed { All Timed (each (L.fix lent) 0 (L.count lent)) }
{
    let n = lent.count();
    if n == 0 {
        return Ok(());
    }
    let limit = limit_of(lent.kind());
    let mut s = scan_first(lent.fix(0), limit);
    for k in 1..n {
        s = scan_next(s, lent.fix(k), limit);
    }
    scan_says(s)
}

// The fixes put down after a record's head.
fn put<L: Lent>(lent: L, out: &mut [u8])
    requires few { L.count lent ≤ 4096 }
    requires room { record_length (layout (L.kind lent)) (L.count lent) ≤ length out.old }
    requires bounded { All (Bounded (layout (L.kind lent)).limit) (each (L.fix lent) 0 (L.count lent)) }
    ensures { out.new ≡ sets out.old 10 (all_bytes (layout (L.kind lent)) (each (L.fix lent) 0 (L.count lent))) }
{
    let kind = lent.kind();
    for k in 0..lent.count() {
        put_fix(
            out,
            kind,
            record_length(kind, k as u32) as usize,
            lent.fix(k),
        );
    }
}

// The record of the fixes, marked never. It goes over them twice: once for the checks, and once to put them down.
pub(crate) fn write_lent<L: Lent>(lent: L, out: &mut [u8]) -> Result<u32, Refusal>
    ensures { Writes (layout (L.kind lent)) (each (L.fix lent) 0 (L.count lent)) out.old (wrote result) out.new }
{
    let length = begin_record(lent.kind(), lent.count(), scan(lent), out)?;
    put(lent, out);
    Ok(length)
}
