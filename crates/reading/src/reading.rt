// The reader: a place in a record's bytes, from which its fixes are yielded in order.
ghost use Rattle.std.specs.Prelude.{◌≡◌, ◌-◌};
ghost use Rattle.reading.specs.Reading.{stands, yields, moves, begins, told_refusal, unit_answer};
ghost use Rattle.record.specs.Answers.{refused};
ghost use Rattle.reading.specs.Answers.{found, unit_said};
ghost use Rattle.reading.specs.Steps.{Steps};
ghost use Rattle.std.specs.Iterator.{at_most};
ghost use Rattle.format.specs.Format.{count_field};

use distance::Fix;
use format::{Unit, count_at, fix_at, kind_at, known_kind, record_length, unit_of};
use record::{Refusal, accepted, check};

// The position of a reader of refused bytes: no count of two bytes reaches it. A reader is bytes and a position, so the position says it.
const PAST_EVERY_FIX: usize = 65536;

// Whether a fix stands at position k of these bytes, whoever made them and the position.
fn stands(b: &[u8], k: usize) -> bool
    ensures { result ≡ stands b.now k }
{
    10 <= b.len()
        && known_kind(b)
        && k < count_at(b)
        && record_length(kind_at(b), (k + 1) as u32) as usize <= b.len()
}

// The fix that a reader at position k yields, or that none is left.
pub fn read_at(b: &[u8], k: usize) -> Option<Fix>
    ensures { found result ≡ yields b.now k }
{
    if stands(b, k) {
        Some(fix_at(b, kind_at(b), k))
    } else {
        None
    }
}

// Where a reader stands after that.
pub fn read_on(b: &[u8], k: usize) -> usize
    ensures { result ≡ moves b.now k }
{
    if stands(b, k) { k + 1 } else { k }
}

// In which unit a reader over these bytes yields its fixes, after checks 1 to 9 and 20.
pub fn unit_at(b: &[u8]) -> Result<Unit, Refusal>
    ensures { unit_said result ≡ unit_answer b.now }
{
    Ok(unit_of(accepted(b)?.kind))
}

// The lent bytes and a position in them; `read` alone makes one. The branches of its functions are in the functions over plain bytes that they call.
#[derive(Clone, Copy)]
pub struct Reader<'a> {
    bytes: &'a [u8],
    at: usize,
}

// Where a reader of these bytes begins, after checks 1 to 9 and 20.
fn first_position(b: &[u8]) -> usize
    ensures { result ≡ begins b.now }
{
    match check(b) {
        Ok(()) => 0,
        Err(_) => PAST_EVERY_FIX,
    }
}

// What a reader at this position says of the checks: one that began past every fix was refused.
fn refusal_at(b: &[u8], at: usize) -> Result<(), Refusal>
    ensures { refused result ≡ told_refusal b.now at }
{
    if at < PAST_EVERY_FIX {
        return Ok(());
    }
    check(b)
}

// A reader over lent bytes, which stands on the first fix if checks 1 to 9 and 20 accept them. If not, it yields no fix.
pub fn read<'a>(bytes: &'a [u8]) -> Reader<'a>
    ensures bytes { result.bytes ≡ bytes.entry }
    ensures at { result.at ≡ begins bytes.now }
{
    let at = first_position(bytes);
    Reader { bytes, at }
}

// Whether the reader's bytes were accepted, or why they were refused.
pub fn said<'a>(r: Reader<'a>) -> Result<(), Refusal>
    ensures { refused result ≡ told_refusal r.entry.bytes.now r.entry.at }
{
    refusal_at(r.bytes, r.at)
}

// The next fix, or that none is left; and the reader moves on.
pub fn next<'s, 'a>(r: &'s mut Reader<'a>) -> Option<Fix>
    ensures fix { found result ≡ yields r.old.bytes.now r.old.at }
    ensures bytes { r.new.bytes ≡ r.old.bytes }
    ensures at { r.new.at ≡ moves r.old.bytes.now r.old.at }
{
    let at = r.at;
    r.at = read_on(r.bytes, at);
    read_at(r.bytes, at)
}

// The fixes that are left, as `next` yields them.
impl<'a> Iterator for Reader<'a> {
    type Item = Fix;

    ghost next_gives = { Steps };

    ghost remaining = { λ r. at_most (count_field r.bytes.now - r.at) };

    fn next(&mut self) -> Option<Fix> {
        next(self)
    }
}
