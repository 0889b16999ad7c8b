// The trail: the checks of the question, and the search for the first leg that comes near.
ghost use Rattle.std.specs.Prelude.{◌≡◌};
ghost use Rattle.std.proofs.Math.Option.{some, none};
ghost use Rattle.distance.specs.Fix.{fix_of};
ghost use Rattle.distance.specs.Place.{point_of};
ghost use Rattle.format.specs.Kinds.{layout};
ghost use Rattle.format.specs.Fixes.{nth};
ghost use Rattle.record.specs.Answers.{gives, refused};
ghost use Rattle.record.specs.Laws.Trail.{from};
ghost use Rattle.approach.specs.Approach.{leg_near, told_on, near_from, near_refusal, near_answer, NearMeans};
ghost use Rattle.approach.specs.Answers.{told, approached};
ghost use Rattle.approach.specs.Laws.Ranges.{NearFits};
ghost use Rattle.approach.specs.Laws.Search.{ToldFits, Seekable};
ghost use Rattle.approach.specs.Laws.Checking.{point_outside};

use crate::leg::Pass;
use crate::{Approach, Part, Radius};
use distance::{Fix, Point, Seconds, since};
use format::{Fixes, limit_of};
use record::{Refusal, outside};

// The time of a part of a leg, in seconds after the first fix.
fn told_on(first: Seconds, leg: usize, a: Fix, b: Fix, s: Part) -> Approach
    requires { ToldFits first.0 leg (fix_of a) (fix_of b) s }
    ensures { some result ≡ told_on first.0 leg (fix_of a) (fix_of b) (some s) }
{
    let gone = since(first, a.t);
    let takes = since(a.t, b.t);
    Approach {
        leg: leg as u32,
        num: s.den * (gone.0 as u64) + s.num * (takes.0 as u64),
        den: s.den,
    }
}

// The first leg that comes near gives the answer.
fn first_near(fixes: Fixes<'_>, c: Point, r: Radius) -> Option<Approach>
    requires { Seekable (layout fixes.kind) fixes.bytes.now fixes.count (point_of c) r.0 }
    ensures { told result
        ≡ near_from
        (nth fixes.entry 0).t
        0
        (nth fixes.entry 0)
        (from (nth fixes.entry) 1 fixes.entry.count)
        (point_of c)
        r.0 }
{
    let first = fixes.at(0);
    let mut a = first;
    for k in 1..fixes.count {
        let b = fixes.at(k);
        let pass = Pass { a, b, c, r };
        if let Some(s) = pass.leg_near() {
            return Some(told_on(first.t, k - 1, a, b, s));
        }
        a = b;
    }
    None
}

// A lone fix is a leg at rest. (The search goes from fix to fix, and has no leg of a single one.)
fn lone_near(a: Fix, c: Point, r: Radius) -> Option<Approach>
    requires { NearFits (fix_of a) (fix_of a) (point_of c) r.0 }
    ensures { told result
        ≡ told_on
        (fix_of a).t
        0
        (fix_of a)
        (fix_of a)
        (leg_near (fix_of a) (fix_of a) (point_of c) r.0) }
{
    let pass = Pass { a, b: a, c, r };
    let s = pass.leg_near()?;
    Some(told_on(a.t, 0, a, a, s))
}

// Check 16, by a kind's limit.
fn point_outside(c: Point, r: Radius, limit: u32) -> bool
    ensures { result ≡ point_outside limit (point_of c) r.0 }
{
    outside(c.x, limit) || outside(c.y, limit) || 2 * (limit as u64) < (r.0 as u64)
}

// The question's checks: 1 to 9, 20 and 16. The point and the radius stay two parameters, as the public functions take them.
pub fn near_says(b: &[u8], c: Point, r: Radius) -> Result<(), Refusal>
    ensures { refused result ≡ near_refusal b.now (point_of c) r.0 }
{
    let fixes = record::accepted(b)?;
    if point_outside(c, r, limit_of(fixes.kind)) {
        return Err(Refusal::BadPoint);
    }
    Ok(())
}

// The answer to a question that none of its checks turns away.
pub fn near_asked(b: &[u8], c: Point, r: Radius) -> Option<Approach>
    requires { near_refusal b.now (point_of c) r.0 ≡ none }
    ensures { gives (told result) ≡ near_answer b.now (point_of c) r.0 }
{
    let fixes = record::fixes_in(b);
    if fixes.count == 1 {
        return lone_near(fixes.at(0), c, r);
    }
    first_near(fixes, c, r)
}

// Whether the trail of a record comes within a radius of a point, on which leg first, and when it is closest there.
pub fn near(b: &[u8], c: Point, r: Radius) -> Result<Option<Approach>, Refusal>
    ensures answer { approached result ≡ near_answer b.now (point_of c) r.0 }
    ensures meaning { NearMeans b.now (point_of c) r.0 (approached result) }
{
    near_says(b, c, r)?;
    Ok(near_asked(b, c, r))
}
