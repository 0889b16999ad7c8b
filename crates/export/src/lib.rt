// The interface for programs in other languages: thin functions over the layers, with numbers for answers. A refusal is its number, and 0 is none.
// None asks anything of its caller, since nothing would check that. include/trails.h says the same to a C programmer. C has no option and no result: in the
// structs below a number says whether the others mean something, and each kind has a function of its own name, over columns side by side.
#![tactic(auto)]

mod anchors_of;
mod questions_of;
mod tables_of;

ghost use Rattle.std.specs.Prelude.{◌≡◌, [], ◌++◌, ◌≤◌, length, drop};
ghost use Rattle.format.specs.Kinds.{trail, millimetre_trail, silence_trail};
ghost use Rattle.format.specs.Format.{kind_field};
ghost use Rattle.text.specs.Text.{text};
ghost use Rattle.reading.specs.Reading.{read_answer, times_read, xs_read, ys_read, silences_read};
ghost use Rattle.record.specs.Answers.{gives, answer_by, number_of};
ghost use Rattle.reading.specs.Answers.{found};
ghost use Rattle.writing.specs.Answers.{wrote};
ghost use Rattle.writing.specs.Writing.{columns, write_answer, written};
ghost use Rattle.table.specs.Answers.{table_of};
ghost use Rattle.aging.specs.Answers.{counted};
ghost use Rattle.aging.specs.Aging.{age_answer, aged, days_answer, aged_by_days};
ghost use Rattle.dearest.specs.Dearest.{dearest_answer, dearest_written};
ghost use Rattle.export.specs.Interface.{head_numbers, yield_answer, step_numbers, value_numbers};

use distance::{Fix, Tolerance};
use format::Kind;
use record::Refusal;
use table::{Days, Table};

// Whether a record was accepted, and then what its head says.
#[repr(C)]
#[derive(Clone, Copy)]
pub struct Head {
    pub refusal: u32,
    pub kind: u32,
    pub count: u32,
    pub mark: u32,
}

// A refusal, or a fix, where one was found, and the kind of its record, which says the unit of its place; silence is 1 where one follows the fix, and 0 where none
// does.
#[repr(C)]
#[derive(Clone, Copy)]
pub struct Step {
    pub refusal: u32,
    pub found: u32,
    pub kind: u32,
    pub t: u32,
    pub x: i32,
    pub y: i32,
    pub silence: u32,
}

// A refusal, or a value.
#[repr(C)]
#[derive(Clone, Copy)]
pub struct Answer {
    pub refusal: u32,
    pub value: u32,
}

// A refusal, or the table that was loaded, which is one without rows where there is a refusal.
#[repr(C)]
#[derive(Clone, Copy)]
pub struct Loaded {
    pub refusal: u32,
    pub table: Table,
}

// A refusal, or whether days apply a tolerance to a record, and which, in its unit.
#[repr(C)]
#[derive(Clone, Copy)]
pub struct Applied {
    pub refusal: u32,
    pub applies: u32,
    pub tolerance: u32,
}

// A refusal, or how many calls of a list were turned away.
#[repr(C)]
#[derive(Clone, Copy)]
pub struct Run {
    pub refusal: u32,
    pub turned_away: usize,
}

// A refusal, or the place (x/denominator, y/denominator) and the rounded one.
#[repr(C)]
#[derive(Clone, Copy)]
pub struct Spot {
    pub refusal: u32,
    pub denominator: u32,
    pub x: i64,
    pub y: i64,
    pub whole_x: i32,
    pub whole_y: i32,
}

// A refusal, or whether the box is crossed and then the time numerator/denominator, in seconds after the first fix.
#[repr(C)]
#[derive(Clone, Copy)]
pub struct Crossing {
    pub refusal: u32,
    pub crosses: u32,
    pub numerator: u64,
    pub denominator: u32,
}

// A refusal, or whether the trail comes near the point, and then the first leg that does, counted from 0, and the time of closest approach on it,
// numerator/denominator seconds after the first fix.
#[repr(C)]
#[derive(Clone, Copy)]
pub struct Approach {
    pub refusal: u32,
    pub approaches: u32,
    pub leg: u32,
    pub numerator: u64,
    pub denominator: u64,
}

// An anchor's last place, in centimetres, and whether there is one: 0 for no.
#[repr(C)]
#[derive(Clone, Copy)]
pub struct AnchorState {
    pub x: f32,
    pub y: f32,
    pub seen: u32,
}

// A refusal and the state as it was, or the place, rounded to whole centimetres, and the new state.
#[repr(C)]
#[derive(Clone, Copy)]
pub struct Anchored {
    pub refusal: u32,
    pub x: i32,
    pub y: i32,
    pub state: AnchorState,
}

// The number of a refusal, as wide as the structs have it.
fn number(refusal: Refusal) -> u32
    ensures { result ≡ number_of refusal }
{
    u32::from(refusal.number())
}

// Checks 1 to 9 and 20.
#[unsafe(no_mangle)]
pub extern "C" fn trails_check(b: &[u8]) -> Head
    ensures { result ≡ head_numbers b.now }
{
    match record::check(b) {
        Err(refusal) => Head {
            refusal: number(refusal),
            kind: 0,
            count: 0,
            mark: 0,
        },
        Ok(()) => {
            let h = format::head_of(b);
            Head {
                refusal: 0,
                kind: h.kind,
                count: h.count,
                mark: h.mark,
            }
        },
    }
}

// What a reader yielded of a record of this kind, as numbers. (No `From`, since the kind stands beside the fix.)
fn step_of(fix: Option<Fix>, kind: u32) -> Step
    ensures { result ≡ step_numbers kind (gives (found fix)) }
{
    match fix {
        Some(f) => Step {
            refusal: 0,
            found: 1,
            kind,
            t: f.t.0,
            x: f.x.0,
            y: f.y.0,
            silence: u32::from(f.silence.0),
        },
        None => Step {
            refusal: 0,
            found: 0,
            kind: 0,
            t: 0,
            x: 0,
            y: 0,
            silence: 0,
        },
    }
}

// The fix that a reader at this position yields, after checks 1 to 9 and 20.
#[unsafe(no_mangle)]
pub extern "C" fn trails_read(b: &[u8], position: usize) -> Step
    ensures { result ≡ step_numbers (kind_field b.now) (yield_answer b.now position) }
{
    match record::check(b) {
        Err(refusal) => Step {
            refusal: number(refusal),
            found: 0,
            kind: 0,
            t: 0,
            x: 0,
            y: 0,
            silence: 0,
        },
        Ok(()) => step_of(reading::read_at(b, position), format::head_of(b).kind),
    }
}

// What a call answers that gives one number.
impl From<Result<u32, Refusal>> for Answer {
    ghost from_gives = { λ said answer. answer ≡ value_numbers (answer_by (λ n. n) said) };

    fn from(said: Result<u32, Refusal>) -> Answer {
        match said {
            Ok(value) => Answer { refusal: 0, value },
            Err(refusal) => Answer {
                refusal: number(refusal),
                value: 0,
            },
        }
    }
}

// All fixes, after checks 1 to 9 and 20, in four columns: the inverse of the three writers of a list.
#[unsafe(no_mangle)]
pub extern "C" fn trails_read_all(
    b: &[u8],
    t: &mut [u32],
    x: &mut [i32],
    y: &mut [i32],
    silence: &mut [u8],
) -> Answer
    ensures { (result ≡ value_numbers (read_answer b.now)) × (t.new ≡ times_read b.now t.old) × (x.new ≡ xs_read b.now x.old) × (y.new ≡ ys_read b.now y.old) × (silence.new ≡ silences_read b.now silence.old) }
{
    Answer::from(reading::read_all(b, t, x, y, silence))
}

// The record of the fixes whose times and coordinates the three columns have, in centimetres: kind 1.
#[unsafe(no_mangle)]
pub extern "C" fn trails_write(t: &[u32], x: &[i32], y: &[i32], out: &mut [u8]) -> Answer
    ensures { (result ≡ value_numbers (write_answer trail (columns trail t.now x.now y.now []) out.old)) × (out.new ≡ written trail (columns trail t.now x.now y.now []) out.old) }
{
    Answer::from(writing::write(Kind::Trail, t, x, y, b"", out))
}

// The same in millimetres: kind 2.
#[unsafe(no_mangle)]
pub extern "C" fn trails_write_millimetres(
    t: &[u32],
    x: &[i32],
    y: &[i32],
    out: &mut [u8],
) -> Answer
    ensures { (result ≡ value_numbers (write_answer millimetre_trail (columns millimetre_trail t.now x.now y.now []) out.old)) × (out.new ≡ written millimetre_trail (columns millimetre_trail t.now x.now y.now []) out.old) }
{
    Answer::from(writing::write(Kind::MillimetreTrail, t, x, y, b"", out))
}

// The same in centimetres with silences, which a fourth column has: kind 3.
#[unsafe(no_mangle)]
pub extern "C" fn trails_write_silences(
    t: &[u32],
    x: &[i32],
    y: &[i32],
    silence: &[u8],
    out: &mut [u8],
) -> Answer
    ensures { (result ≡ value_numbers (write_answer silence_trail (columns silence_trail t.now x.now y.now silence.now) out.old)) × (out.new ≡ written silence_trail (columns silence_trail t.now x.now y.now silence.now) out.old) }
{
    Answer::from(writing::write(Kind::SilenceTrail, t, x, y, silence, out))
}

// The record of the dearest trail of n fixes: kind 1.
#[unsafe(no_mangle)]
pub extern "C" fn trails_dearest(n: usize, out: &mut [u8]) -> Answer
    ensures { (result ≡ value_numbers (dearest_answer n out.old)) × (out.new ≡ dearest_written n out.old) }
{
    Answer::from(dearest::write_dearest(n, out))
}

// The listing's text of the lent bytes, at the start of the output, and its length.
#[unsafe(no_mangle)]
pub extern "C" fn trails_list(b: &[u8], out: &mut [u8; 159765]) -> usize
    ensures { (result ≡ length (text b.now)) × (result ≤ 159765) × (out.new ≡ text b.now ++ drop result out.old) }
{
    text::list(b, out)
}

// Ages the record at the start of the buffer by tolerance.
#[unsafe(no_mangle)]
pub extern "C" fn trails_age(b: &mut [u8], tolerance: u16) -> Answer
    ensures { (result ≡ value_numbers (age_answer b.old tolerance)) × (b.new ≡ aged b.old tolerance) }
{
    Answer::from(aging::age(b, Tolerance(tolerance)))
}

// Ages the record at the start of the buffer by days, by the table that is handed in.
#[unsafe(no_mangle)]
pub extern "C" fn trails_age_by_days(b: &mut [u8], days: u16, t: Table) -> Answer
    ensures { (result ≡ value_numbers (days_answer b.old days (table_of t))) × (b.new ≡ aged_by_days b.old days (table_of t)) }
{
    Answer::from(aging::age_by_days(b, Days(days), t))
}
