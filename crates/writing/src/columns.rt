// The writer over columns of numbers, for callers that cannot lend fixes: a record of the kind that they ask for, its places in that kind's unit. For a kind without
// silences their column isn't looked at, and may be empty.
ghost use Rattle.std.specs.Prelude.{◌≡◌, true, cond, ◌<◌, length, get_or, refl};
ghost use Rattle.format.specs.Kinds.{has_silences, layout};
ghost use Rattle.writing.specs.Writing.{column_fix, columns_count, columns, Writes};
ghost use Rattle.writing.specs.Answers.{wrote};

use crate::lent::{Lent, write_lent};
use distance::{Coordinate, Fix, Seconds, Silence};
use format::{Kind, has_silences};
use record::Refusal;

// A list of fixes of some kind, lent as a column of numbers for each field.
#[derive(Clone, Copy)]
struct Columns<'a> {
    kind: Kind,
    ts: &'a [u32],
    xs: &'a [i32],
    ys: &'a [i32],
    silences: &'a [u8],
}

impl<'a> Columns<'a> {
    // What follows the fix at position k.
    fn silence(self, k: usize) -> Silence
        requires { has_silences (layout self.kind) ≡ true → k < length self.silences.now }
        ensures { result.0 ≡ cond (has_silences (layout self.entry.kind)) (get_or self.entry.silences.now k 0) 0 }
    {
        if has_silences(self.kind) {
            Silence(self.silences[k])
        } else {
            Silence(0)
        }
    }
}

impl<'a> Lent for Columns<'a> {
    ghost kind = { λ s. s.kind };

    ghost count = { λ s. columns_count (layout s.kind) s.ts.now s.xs.now s.ys.now s.silences.now };

    ghost fix = { λ s. column_fix (layout s.kind) s.ts.now s.xs.now s.ys.now s.silences.now };

    fn kind(self) -> Kind {
        self.kind
    }

    // As many as the shortest column has that is looked at.
    fn count(self) -> usize {
        let places = self.ts.len().min(self.xs.len().min(self.ys.len()));
        if has_silences(self.kind) {
            places.min(self.silences.len())
        } else {
            places
        }
    }

    fn fix(self, k: usize) -> Fix {
        Fix {
            t: Seconds(self.ts[k]),
            x: Coordinate(self.xs[k]),
            y: Coordinate(self.ys[k]),
            silence: self.silence(k),
        }
    }

    ghost sayable = { λ s k e. Prim.rw e refl };
}

// The record of the fixes that the columns have, marked never.
pub fn write(
    kind: Kind,
    ts: &[u32],
    xs: &[i32],
    ys: &[i32],
    silences: &[u8],
    out: &mut [u8],
) -> Result<u32, Refusal>
    ensures { Writes (layout kind) (columns (layout kind) ts.now xs.now ys.now silences.now) out.old (wrote result) out.new }
{
    let columns = Columns {
        kind,
        ts,
        xs,
        ys,
        silences,
    };
    write_lent(columns, out)
}
