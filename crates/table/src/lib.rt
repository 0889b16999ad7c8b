// A hall's own aging table: rows of day and tolerance, loaded from lent columns and handed on by value.
#![tactic(auto)]

ghost use Rattle.std.specs.Prelude.{◌≡◌, ◌+◌, ◌*◌, ◌<◌, ◌≤◌, length, map, IfOk};
ghost use Rattle.std.proofs.Math.Option.{none};
ghost use Rattle.format.specs.Format.{each};
ghost use Rattle.record.specs.Checks.{bad_row, some_bad_row, load_refusal};
ghost use Rattle.record.specs.Answers.{refused};
ghost use Rattle.table.specs.Table.{column_row, column_rows, numbers_table, table_at, days_give, tolerance_answer, built_in};
ghost use Rattle.distance.specs.Options.{option_by};
ghost use Rattle.table.specs.Answers.{row_of, tolerance_of, no_row, no_table, table_of, ClearedAfter, Loads, on_day};

use record::Refusal;
use std::array;

// A trail's age.
#[repr(C)]
#[derive(Clone, Copy, PartialEq, Eq, PartialOrd, Ord)]
pub struct Days(pub u16);

// A row's tolerance, in centimetres whatever the record's unit is.
#[repr(C)]
#[derive(Clone, Copy, PartialEq, Eq, PartialOrd, Ord)]
pub struct RowTolerance(pub u16);

// From this day on, this tolerance.
#[repr(C)]
#[derive(Clone, Copy, PartialEq, Eq)]
pub struct Row {
    pub day: Days,
    pub tolerance: RowTolerance,
}

// A table: its first `count` rows. Whoever makes one may put any numbers there: what is handed a table looks at the count before it looks at a row.
// C hands it over by value, so it has a length beside an array.
#[repr(C)]
#[derive(Clone, Copy)]
pub struct Table {
    pub count: u16,
    pub rows: [Row; 32],
}

impl Row {
    // What stands behind a table's rows.
    fn none() -> Row
        ensures { result ≡ no_row }
    {
        Row {
            day: Days(0),
            tolerance: RowTolerance(0),
        }
    }
}

impl Table {
    // A table without rows, which is turned away.
    pub fn empty() -> Table
        ensures { result ≡ no_table }
    {
        Table {
            count: 0,
            rows: [Row::none(); 32],
        }
    }
}

// Whether a row is too high, or not later than the row before it, or lower.
fn bad_row(before: Option<Row>, row: Row) -> bool
    ensures { result ≡ bad_row (option_by row_of before) (row_of row) }
{
    let high = 32000 < row.tolerance.0;
    match before {
        None => high,
        Some(before) => row.day <= before.day || row.tolerance < before.tolerance || high,
    }
}

// Whether one of these rows is.
fn some_bad_row(rows: &[Row]) -> bool
    ensures { result ≡ some_bad_row none (map row_of rows.now) }
{
    let mut before = None;
    for row in rows {
        if bad_row(before, *row) {
            return true;
        }
        before = Some(*row);
    }
    false
}

// The rows of a table that anybody may have made, after checks 22 and 23. Its count and its rows are handed in apart: a table of 130 bytes that is lent whole is
// first copied by the C library's `memcpy`, for which the archive would have to ask.
fn accepted(count: u16, rows: &[Row; 32]) -> Result<&[Row], Refusal>
    ensures refusal { refused result ≡ load_refusal (table_of (record { count = count; rows = rows.now })) }
    ensures rows { IfOk result (λ r. map row_of r.now ≡ table_of (record { count = count; rows = rows.now })) }
{
    let count = count as usize;
    if count == 0 || 32 < count {
        return Err(Refusal::BadRowCount);
    }
    let rows = &rows[..count];
    if some_bad_row(rows) {
        return Err(Refusal::BadRows);
    }
    Ok(rows)
}

// Checks 22 and 23.
pub fn check(t: Table) -> Result<(), Refusal>
    ensures { refused result ≡ load_refusal (table_of t) }
{
    let rows = t.rows;
    accepted(t.count, &rows)?;
    Ok(())
}

// The table of the first n rows of two columns, which are C's.
fn filled(days: &[u16], tolerances: &[u16], n: usize) -> Table
    requires { (n ≤ 32) × (n ≤ length days.now) × (n ≤ length tolerances.now) }
    ensures { (table_of result ≡ each (column_row days.now tolerances.now) 0 n) × ClearedAfter result }
{
    let row = |k: usize| {
        if k < n {
            Row {
                day: Days(days[k]),
                tolerance: RowTolerance(tolerances[k]),
            }
        } else {
            Row::none()
        }
    };
    Table {
        count: n as u16,
        rows: array::from_fn(row),
    }
}

// Loads a table from a column of days and one of tolerances. It has as many rows as the shorter column.
pub fn load(days: &[u16], tolerances: &[u16]) -> Result<Table, Refusal>
    ensures { Loads (column_rows days.now tolerances.now) result }
{
    let n = days.len().min(tolerances.len());
    if 32 < n {
        return Err(Refusal::BadRowCount);
    }
    let table = filled(days, tolerances, n);
    check(table)?;
    Ok(table)
}

// Document 01's four rows, loaded like any other table.
pub fn built_in() -> Table
    ensures { (table_of result ≡ built_in) × ClearedAfter result }
{
    load(&[2, 7, 30, 90], &[10, 25, 100, 400]).unwrap_or(Table::empty())
}

// The table that its 65 numbers are.
fn of_numbers(numbers: &[u16]) -> Table
    requires { length numbers.now ≡ 65 }
    ensures { table_of result ≡ numbers_table numbers.now }
{
    let row = |k: usize| Row {
        day: Days(numbers[1 + 2 * k]),
        tolerance: RowTolerance(numbers[2 + 2 * k]),
    };
    Table {
        count: numbers[0],
        rows: array::from_fn(row),
    }
}

// Table k of a lent list of tables, each 65 numbers; a table without rows where it isn't lent whole.
pub fn lent(tables: &[u16], k: usize) -> Table
    ensures { table_of result ≡ table_at tables.now k }
{
    if k < tables.len() / 65 {
        of_numbers(&tables[65 * k..65 * k + 65])
    } else {
        Table::empty()
    }
}

// The tolerance of the last row whose day isn't above the asked one.
fn last_row(rows: &[Row], days: Days) -> Option<RowTolerance>
    ensures { option_by tolerance_of result ≡ days_give (map row_of rows.now) days.0 }
{
    rows.iter()
        .rev()
        .find(|row| row.day <= days)
        .map(|row| row.tolerance)
}

// The tolerance that a table gives a day, in centimetres, after checks 22 and 23.
pub fn tolerance_on(t: Table, days: Days) -> Result<Option<RowTolerance>, Refusal>
    ensures { on_day result ≡ tolerance_answer (table_of t) days.0 }
{
    let rows = t.rows;
    let rows = accepted(t.count, &rows)?;
    Ok(last_row(rows, days))
}
