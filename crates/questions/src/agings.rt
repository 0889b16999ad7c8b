// Lists of agings: the calls of a lent list, made one after the other on one lent buffer, each by days with its own of the lent tables.
ghost use Rattle.std.specs.Prelude.{◌≡◌};
ghost use Rattle.format.specs.Format.{never, mark_field};
ghost use Rattle.record.specs.Checks.{IsAccepted};
ghost use Rattle.aging.specs.Aging.{left_by, answered};
ghost use Rattle.aging.specs.Answers.{counted};
ghost use Rattle.crossing.specs.Answers.{crossed, box_of};
ghost use Rattle.distance.specs.Place.{point_of};
ghost use Rattle.approach.specs.Answers.{approached};
ghost use Rattle.questions.specs.Agings.{run, refused_calls, run_answer, after_answer, left_after, near_after_answer, near_left_after, call_of, calls_of};
ghost use Rattle.questions.specs.Answers.{ran};
ghost use Rattle.questions.specs.Claim.{Claim};

use approach::{Approach, Radius};
use crossing::{Edges, Window};
use distance::{Point, Tolerance};
use legs::Fraction;
use record::Refusal;
use table::Days;

// One call of a list: a number below 65,536 is a tolerance, and one from there on is days and one of the lent tables.
// The numbers and the tables are C's two lists.
fn call(b: &mut [u8], tables: &[u16], n: u64) -> Result<u32, Refusal>
    ensures { (counted result ≡ answered b.old (call_of tables.now n)) × (b.new ≡ left_by b.old (call_of tables.now n)) }
{
    if n < 65536 {
        return aging::age(b, Tolerance(n as u16));
    }
    let t = table::lent(tables, (n / 65536 - 1) as usize);
    aging::age_by_days(b, Days((n % 65536) as u16), t)
}

// All calls of the list, each given the buffer as the one before left it; says how many were turned away.
fn call_each(b: &mut [u8], calls: &[u64], tables: &[u16]) -> usize
    ensures { (result ≡ refused_calls b.old (calls_of tables.now calls.now)) × (b.new ≡ run b.old (calls_of tables.now calls.now)) }
{
    let mut refused = 0;
    for n in calls {
        if call(b, tables, *n).is_err() {
            refused += 1;
        }
    }
    refused
}

// All calls of the list, if the buffer begins with a record: how many of them were turned away.
pub fn call_all(b: &mut [u8], calls: &[u64], tables: &[u16]) -> Result<usize, Refusal>
    ensures { (ran result ≡ run_answer b.old (calls_of tables.now calls.now)) × (b.new ≡ run b.old (calls_of tables.now calls.now)) }
{
    record::check(b)?;
    Ok(call_each(b, calls, tables))
}

// All calls of the list, and then a crossing asked of what they left. A question that is refused is refused first, and then nothing is done. Of an original,
// an accepted record marked never, the claim holds: what is left is Douglas-Peucker's of the original at the greatest tolerance applied, and the answer is
// true of the original within it.
pub fn crosses_after(
    b: &mut [u8],
    calls: &[u64],
    tables: &[u16],
    w: Window,
    e: Edges,
) -> Result<Option<Fraction>, Refusal>
    ensures { (crossed result ≡ after_answer b.old (calls_of tables.now calls.now) w.start.0 w.end.0 (box_of e)) × (b.new ≡ left_after b.old (calls_of tables.now calls.now) w.start.0 w.end.0 (box_of e)) × (IsAccepted b.old → mark_field b.old ≡ never → Claim b.old (calls_of tables.now calls.now)) }
{
    crossing::cross_says(b, w, e)?;
    call_each(b, calls, tables);
    Ok(crossing::cross_asked(b, w, e))
}

// The same with a radius question in the crossing's place: of its three lines two differ, and a trait for them would be no plainer.
pub fn near_after(
    b: &mut [u8],
    calls: &[u64],
    tables: &[u16],
    c: Point,
    r: Radius,
) -> Result<Option<Approach>, Refusal>
    ensures { (approached result ≡ near_after_answer b.old (calls_of tables.now calls.now) (point_of c) r.0) × (b.new ≡ near_left_after b.old (calls_of tables.now calls.now) (point_of c) r.0) × (IsAccepted b.old → mark_field b.old ≡ never → Claim b.old (calls_of tables.now calls.now)) }
{
    approach::near_says(b, c, r)?;
    call_each(b, calls, tables);
    Ok(approach::near_asked(b, c, r))
}
