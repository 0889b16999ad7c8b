// The reader of all fixes at once: their times, x, y and silences into four lent columns of numbers.
ghost use Rattle.std.specs.Prelude.{◌≡◌, set};
ghost use Rattle.format.specs.Fixes.{nth};
ghost use Rattle.format.specs.Format.{each};
ghost use Rattle.reading.specs.Reading.{filled, times_of, xs_of, ys_of, silences_of, read_answer, times_read, xs_read, ys_read, silences_read};
ghost use Rattle.reading.specs.Answers.{read_count};

use format::Fixes;
use record::{Refusal, accepted};

// A value into its place of a column, if the column has that place. (`get_mut` would not say what the slice is afterwards.)
fn put<T: Copy>(column: &mut [T], k: usize, value: T)
    ensures { column.new ≡ set column.old k value }
{
    if k < column.len() {
        column[k] = value;
    }
}

// The fixes into the columns. These come one by one from the C interface, and a struct of all four would serve this function alone.
fn fill(fixes: Fixes<'_>, ts: &mut [u32], xs: &mut [i32], ys: &mut [i32], silences: &mut [u8])
    ensures times { ts.new ≡ filled ts.old (times_of (each (nth fixes.entry) 0 fixes.entry.count)) }
    ensures xs { xs.new ≡ filled xs.old (xs_of (each (nth fixes.entry) 0 fixes.entry.count)) }
    ensures ys { ys.new ≡ filled ys.old (ys_of (each (nth fixes.entry) 0 fixes.entry.count)) }
    ensures silences { silences.new ≡ filled silences.old (silences_of (each (nth fixes.entry) 0 fixes.entry.count)) }
{
    for k in 0..fixes.count {
        let f = fixes.at(k);
        put(ts, k, f.t.0);
        put(xs, k, f.x.0);
        put(ys, k, f.y.0);
        put(silences, k, f.silence.0);
    }
}

// All fixes of a record that the checks accept, into four columns, in the record's unit: each gets as many as it holds. The answer is how many the record has.
pub fn read_all(
    b: &[u8],
    ts: &mut [u32],
    xs: &mut [i32],
    ys: &mut [i32],
    silences: &mut [u8],
) -> Result<u32, Refusal>
    ensures answer { read_count result ≡ read_answer b.now }
    ensures times { ts.new ≡ times_read b.now ts.old }
    ensures xs { xs.new ≡ xs_read b.now xs.old }
    ensures ys { ys.new ≡ ys_read b.now ys.old }
    ensures silences { silences.new ≡ silences_read b.now silences.old }
{
    let fixes = accepted(b)?;
    fill(fixes, ts, xs, ys, silences);
    Ok(fixes.count as u32)
}
