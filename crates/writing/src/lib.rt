// The writers of the record layer: over a lent list of fixes, whose struct says their unit and whether they have silences, and over columns of numbers. All make
// the same checks, put down the same bytes and promise that reading gives the list again.
#![tactic(auto)]

mod columns;
mod lent;
mod list;

ghost use Rattle.std.specs.Prelude.{◌≡◌, ℕ, ◌≤◌, List, length, OnOk};
ghost use Rattle.distance.specs.Fix.{Fix as Plain};
ghost use Rattle.format.specs.Kinds.{layout};
ghost use Rattle.format.specs.Format.{record_length};
ghost use Rattle.record.specs.Checks.{sentence, first, fix_checks, refusal, writing};
ghost use Rattle.writing.specs.Writing.{asked_to_write};
ghost use Rattle.writing.specs.Answers.{Numbers, refused_by, wrote_by};
ghost use Rattle.writing.specs.Laws.Writing.{Begun};

pub use columns::write;
use distance::{Seconds, Silence};
use format::{Kind, put_head, record_length};
pub use list::{ListedFix, write_centimetres, write_list, write_millimetres, write_silences};
use record::Refusal;

// A coordinate in centimetres, and a fix in them; in millimetres; and a fix in centimetres that says whether silence follows. A length in one unit can't stand in
// the other's place.
#[derive(Clone, Copy)]
pub struct Centimetres(pub i16);

#[derive(Clone, Copy)]
pub struct CentimetreFix {
    pub t: Seconds,
    pub x: Centimetres,
    pub y: Centimetres,
}

#[derive(Clone, Copy)]
pub struct Millimetres(pub i32);

#[derive(Clone, Copy)]
pub struct MillimetreFix {
    pub t: Seconds,
    pub x: Millimetres,
    pub y: Millimetres,
}

#[derive(Clone, Copy)]
pub struct SilenceFix {
    pub t: Seconds,
    pub x: Centimetres,
    pub y: Centimetres,
    pub silence: Silence,
}

// The writer's checks 3, 7, 8, 9, 20 and 15, of a list of n fixes whose pass said `scanned` and an output of so many bytes. What the pass said is asked only of a
// list that check 3 lets pass.
fn write_says<E: From<Refusal> + Copy>(
    kind: Kind,
    n: usize,
    scanned: Result<(), E>,
    output: usize,
) -> Result<(), E>
    ensures refusal { (number : E → ℕ) → Numbers E.from_gives number
        → (l : List Plain) → length l ≡ n
        → (1 ≤ n → n ≤ 4096
        → refused_by number scanned ≡ first (sentence (layout kind) (asked_to_write l output)) fix_checks)
        → refused_by number result ≡ refusal (layout kind) writing (asked_to_write l output) }
    ensures few { OnOk result (n ≤ 4096) }
    ensures room { OnOk result (record_length (layout kind) n ≤ output) }
{
    if n == 0 || 4096 < n {
        return Err(E::from(Refusal::BadCount));
    }
    scanned?;
    if output < record_length(kind, n as u32) as usize {
        return Err(E::from(Refusal::ShortOutput));
    }
    Ok(())
}

// How every writer begins: it makes its checks, and puts down the head of a record that was never thinned if none turns the list away. The answer is the writer's;
// the fixes are put down after it. A caller whose pass knows faults that no check has says them by an error type of its
// own, and gets its own error back: what is promised of an error is its number, however the caller numbers its errors, as
// long as a refusal among them keeps the paper's number.
pub fn begin_record<E: From<Refusal> + Copy>(
    kind: Kind,
    n: usize,
    scanned: Result<(), E>,
    out: &mut [u8],
) -> Result<u32, E>
    ensures { (number : E → ℕ) → Numbers E.from_gives number
        → (l : List Plain) → length l ≡ n
        → (1 ≤ n → n ≤ 4096
        → refused_by number scanned
        ≡ first (sentence (layout kind) (asked_to_write l (length out.old))) fix_checks)
        → Begun (layout kind) l out.old (wrote_by number result) out.new }
{
    write_says(kind, n, scanned, out.len())?;
    put_head(out, kind, n as u32, 65535);
    Ok(record_length(kind, n as u32))
}
