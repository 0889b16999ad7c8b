// The dearest trail: of so many fixes the one whose thinning measures the most, to size a controller by. It is written as a record that was never thinned.
#![tactic(auto)]

ghost use Rattle.std.specs.Prelude.{◌≡◌, ◌<◌, ◌≤◌, length};
ghost use Rattle.std.proofs.lemmas.List.Edits.{sets};
ghost use Rattle.distance.specs.Fix.{fix_of};
ghost use Rattle.format.specs.Kinds.{trail};
ghost use Rattle.format.specs.Format.{record_length, all_bytes};
ghost use Rattle.writing.specs.Answers.{wrote};
ghost use Rattle.aging.specs.Answers.{counted};
ghost use Rattle.dearest.specs.Dearest.{dearest_y, dearest_fix, dearest, dearest_answer, dearest_marked, dearest_written, dearest_count};

use distance::{Coordinate, Fix, Seconds, Silence, Tolerance};
use format::Kind;
use record::Refusal;

// How far from 0 the fix at position i of n is: to one side and to the other in turn.
fn dearest_y(n: usize, i: usize) -> Coordinate
    requires { (i < n) × (n ≤ 4096) }
    ensures { result.0 ≡ dearest_y n i }
{
    let far = (n - 1 - i) as i32;
    if i % 2 == 0 {
        Coordinate(far)
    } else {
        Coordinate(-far)
    }
}

// The fix at position i of n.
fn dearest_fix(n: usize, i: usize) -> Fix
    requires { (i < n) × (n ≤ 4096) }
    ensures { fix_of result ≡ dearest_fix n i }
{
    Fix {
        t: Seconds(i as u32),
        x: Coordinate(0),
        y: dearest_y(n, i),
        silence: Silence(0),
    }
}

// The n fixes, after a record's head; n is how many are asked for, and no length of the output. (The writer's own pass goes over fixes that are lent; these are made.)
fn put_dearest(n: usize, out: &mut [u8])
    requires { (n ≤ 4096) × (record_length trail n ≤ length out.old) }
    ensures { out.new ≡ sets out.old 10 (all_bytes trail (dearest n)) }
{
    // where the next fix goes: counted anew for each, the record would take a quarter longer
    let mut at = format::record_length(Kind::Trail, 0) as usize;
    for i in 0..n {
        format::put_fix(out, Kind::Trail, at, dearest_fix(n, i));
        at += format::size_of(Kind::Trail) as usize;
    }
}

// Writes the record of the dearest trail of n fixes. None of its fixes is turned away by 7, 8, 9 or 20, so the writer's checks are 3 and 15.
pub fn write_dearest(n: usize, out: &mut [u8]) -> Result<u32, Refusal>
    ensures answer { wrote result ≡ dearest_answer n out.old }
    ensures bytes { out.new ≡ dearest_written n out.old }
{
    let length = writing::begin_record::<Refusal>(Kind::Trail, n, Ok(()), out)?;
    put_dearest(n, out);
    Ok(length)
}

// Writes it and ages it at tolerance 1: the most that an aging of n fixes measures. What the two calls answer is known before they are made.
pub fn age_dearest(n: usize, out: &mut [u8]) -> Result<u32, Refusal>
    ensures answer { counted result ≡ dearest_count n out.old }
    ensures bytes { out.new ≡ dearest_marked 1 n out.old }
{
    write_dearest(n, out)?;
    aging::age(out, Tolerance(1))
}
