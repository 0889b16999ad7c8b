// Tables, for programs in other languages: loaded from columns, by value, and asked what they apply to a record.
ghost use Rattle.std.specs.Prelude.{◌≡◌};
ghost use Rattle.record.specs.Answers.{refused};
ghost use Rattle.table.specs.Table.{column_rows, built_in};
ghost use Rattle.table.specs.Answers.{loaded, table_of, ClearedAfter};
ghost use Rattle.aging.specs.Answers.{applied};
ghost use Rattle.aging.specs.Aging.{apply_answer};
ghost use Rattle.export.specs.Interface.{refusal_number, LoadNumbers, applied_numbers};

use crate::{Applied, Loaded, number};
use distance::Tolerance;
use record::Refusal;
use table::{Days, Table};

// Whether it was refused, as a number.
fn refusal_of<T>(said: &Result<T, Refusal>) -> u32
    ensures { result ≡ refusal_number (refused said.now) }
{
    match said {
        Ok(_) => 0,
        Err(refusal) => number(*refusal),
    }
}

// A table that was loaded, or the refusal with one that has no rows.
impl From<Result<Table, Refusal>> for Loaded {
    ghost from_gives = { λ said numbers. numbers ≡ record { refusal = refusal_number (refused said); table = loaded said } };

    fn from(said: Result<Table, Refusal>) -> Loaded {
        Loaded {
            refusal: refusal_of(&said),
            table: said.unwrap_or(Table::empty()),
        }
    }
}

// Loads a table from a column of days and one of tolerances.
#[unsafe(no_mangle)]
pub extern "C" fn trails_load(days: &[u16], tolerances: &[u16]) -> Loaded
    ensures { LoadNumbers (column_rows days.now tolerances.now) result }
{
    Loaded::from(table::load(days, tolerances))
}

// The built-in four rows.
#[unsafe(no_mangle)]
pub extern "C" fn trails_built_in() -> Table
    ensures { (table_of result ≡ built_in) × ClearedAfter result }
{
    table::built_in()
}

// What days apply.
impl From<Result<Option<Tolerance>, Refusal>> for Applied {
    ghost from_gives = { λ said numbers. numbers ≡ applied_numbers (applied said) };

    fn from(said: Result<Option<Tolerance>, Refusal>) -> Applied {
        match said {
            Ok(None) => Applied {
                refusal: 0,
                applies: 0,
                tolerance: 0,
            },
            Ok(Some(e)) => Applied {
                refusal: 0,
                applies: 1,
                tolerance: u32::from(e.0),
            },
            Err(refusal) => Applied {
                refusal: number(refusal),
                applies: 0,
                tolerance: 0,
            },
        }
    }
}

// The tolerance that these days apply to the record by the table, in its unit.
#[unsafe(no_mangle)]
pub extern "C" fn trails_days_apply(b: &[u8], days: u16, t: Table) -> Applied
    ensures { result ≡ applied_numbers (apply_answer b.now days (table_of t)) }
{
    Applied::from(aging::days_apply(b, Days(days), t))
}
