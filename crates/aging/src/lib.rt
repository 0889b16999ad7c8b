// The thinning layer: the agings, which thin a record in place, by tolerance and by days.
#![tactic(auto)]

ghost use Rattle.std.specs.Prelude.{◌≡◌, ◌<◌, ◌≤◌, length};
ghost use Rattle.format.specs.Kinds.{layout};
ghost use Rattle.format.specs.Format.{record_length, fixes};
ghost use Rattle.record.specs.Checks.{IsAccepted};
ghost use Rattle.std.proofs.Math.Option.{some};
ghost use Rattle.table.specs.Answers.{table_of};
ghost use Rattle.aging.specs.Aging.{new_mark, in_unit, thinned_record, age_refusal, age_answer, aged, apply_answer, days_answer, aged_by_days};
ghost use Rattle.aging.specs.Answers.{counted, applied};
ghost use Rattle.record.specs.Answers.{refused};
ghost use Rattle.thinning.specs.Thinning.{thinning};
ghost use Rattle.aging.specs.Laws.Pack.{Packed};

use distance::Tolerance;
use format::{Fixes, Kind};
use record::Refusal;
use table::{Days, RowTolerance, Table};

// Closes up the marked fixes of the first n, and says how many they are. Each is read before anything is stored over it. The
// marks are those of `mark_kept`, whose count of fixes stands beside them.
fn pack(b: &mut [u8], kind: Kind, keep: &[bool], n: usize) -> usize
    requires few { n ≤ 4096 }
    requires marks { n ≤ length keep.now }
    requires whole { record_length (layout kind) n ≤ length b.old }
    ensures { Packed (layout kind) b.old keep.now n b.new result }
{
    let mut w = 0;
    for k in 0..n {
        if keep[k] {
            format::move_fix(b, kind, k, w);
            w += 1;
        }
    }
    w
}

// The mark of a record after a thinning at e.
fn new_mark(mark: u32, e: Tolerance) -> u32
    requires { mark < 65536 }
    ensures mark { result ≡ new_mark mark e.0 }
    ensures fits { result < 65536 }
{
    let e = u32::from(e.0);
    if mark == 65535 { e } else { mark.max(e) }
}

// Thins an accepted record at e, in place, and counts. The keep marks, an array since nothing of the interface allocates, are made anew for each thinning and lent on through the recursion.
fn thin(b: &mut [u8], e: Tolerance) -> u32
    requires { IsAccepted b.old }
    ensures count { result ≡ (thinning e.0 (fixes b.old)).count }
    ensures bytes { b.new ≡ thinned_record b.old e.0 }
{
    let Fixes { kind, count: n, .. } = record::fixes_in(b);
    let mark = new_mark(format::mark_at(b), e);
    let mut keep = [false; 4096];
    let count = thinning::mark_kept(b, &mut keep, n, kind, e);
    let kept = pack(b, kind, &keep, n);
    format::put_head(b, kind, kept as u32, mark);
    count
}

// Aging's checks: 1 to 9, 20 and 10.
fn age_says(b: &[u8], e: Tolerance) -> Result<(), Refusal>
    ensures { refused result ≡ age_refusal b.now e.0 }
{
    let fixes = record::accepted(b)?;
    if format::top_of(fixes.kind) < u32::from(e.0) {
        return Err(Refusal::HighTolerance);
    }
    Ok(())
}

// Ages the record at the start of the buffer by tolerance: a shift's first thinning and every later one.
pub fn age(b: &mut [u8], e: Tolerance) -> Result<u32, Refusal>
    ensures answer { counted result ≡ age_answer b.old e.0 }
    ensures bytes { b.new ≡ aged b.old e.0 }
{
    age_says(b, e)?;
    Ok(thin(b, e))
}

// A row's tolerance in a kind's unit, and no higher than the kind's tolerances go.
fn in_unit(kind: Kind, row: RowTolerance) -> Tolerance
    ensures { some result.0 ≡ in_unit (layout kind) (some row.0) }
{
    let wide = format::per_centimetre(kind) * u32::from(row.0);
    Tolerance(wide.min(format::top_of(kind)) as u16)
}

// What aging by days would apply: checks 1 to 9 and 20 of the record, 22 and 23 of the table, and then the table's tolerance for that day, in the record's unit.
pub fn days_apply(b: &[u8], days: Days, t: Table) -> Result<Option<Tolerance>, Refusal>
    ensures { applied result ≡ apply_answer b.now days.0 (table_of t) }
{
    let kind = record::accepted(b)?.kind;
    let row = table::tolerance_on(t, days)?;
    Ok(row.map(|row| in_unit(kind, row)))
}

// Ages the record at the start of the buffer by days, by the table that is handed in.
pub fn age_by_days(b: &mut [u8], days: Days, t: Table) -> Result<u32, Refusal>
    ensures answer { counted result ≡ days_answer b.old days.0 (table_of t) }
    ensures bytes { b.new ≡ aged_by_days b.old days.0 (table_of t) }
{
    match days_apply(b, days, t)? {
        Some(e) => Ok(thin(b, e)),
        None => Ok(0),
    }
}
