// The questions layer: where a trail is at a moment.
#![tactic(auto)]

ghost use Rattle.std.specs.Prelude.{◌≡◌, ◌&&◌, ◌+◌, ◌*◌, ◌-◌, ◌≤◌, pos, nat_abs};
ghost use Rattle.distance.specs.Fix.{fix_of, widest};
ghost use Rattle.distance.specs.Place.{instant, own, leg, interpolated, place};
ghost use Rattle.distance.specs.Silence.{silent, strictly_between, in_silence};
ghost use Rattle.format.specs.Kinds.{layout};
ghost use Rattle.format.specs.Format.{fixes as trail_of};
ghost use Rattle.record.specs.Checks.{IsAccepted};
ghost use Rattle.record.specs.Laws.Trail.{FixesOf};
ghost use Rattle.moment.specs.Moment.{beside, place_answer};
ghost use Rattle.moment.specs.Answers.{standing, placed};
ghost use Rattle.moment.specs.Laws.Ranges.{OnLeg, Reached, unless_silent};

use distance::{Coordinate, Fix, Point, Seconds, rounded, silent};
use format::Fixes;
use record::Refusal;

// The place (x/d, y/d) in the unit of the record, and beside it the rounded one.
#[derive(Clone, Copy)]
pub struct Spot {
    pub x: i64,
    pub y: i64,
    pub d: u32,
    pub whole: Point,
}

// A moment on the fixes' own clock, in thousandths of a second.
#[derive(Clone, Copy, PartialEq, Eq, PartialOrd, Ord)]
pub struct Instant(pub u64);

// The thousandths of a second from one moment to a later one of the same leg.
#[derive(Clone, Copy)]
pub struct Thousandths(pub u32);

impl Instant {
    fn new(second: Seconds, thousandths: u16) -> Instant
        ensures { result.0 ≡ 1000 * second.0 + thousandths }
    {
        Instant(1000 * (second.0 as u64) + (thousandths as u64))
    }

    fn until(self, later: Instant) -> Thousandths
        requires { (self.0 ≤ later.0) × (later.0 ≤ self.0 + 4294967295) }
        ensures { result.0 ≡ later.0 - self.0 }
    {
        Thousandths((later.0 - self.0) as u32)
    }
}

// One axis of a place: from i to j in `over` thousandths of a second, `gone` of them gone, over `over`.
fn numerator(i: Coordinate, j: Coordinate, over: Thousandths, gone: Thousandths) -> i64
    requires { (nat_abs i.0 ≤ widest) × (nat_abs j.0 ≤ widest) }
    ensures { result ≡ interpolated i.0 j.0 (pos over.0) (pos gone.0) }
{
    let start = i.0 as i64;
    start * (over.0 as i64) + ((j.0 as i64) - start) * (gone.0 as i64)
}

// The place on the leg from a to b.
fn on_leg(a: Fix, b: Fix, u: Instant) -> Spot
    requires { OnLeg (fix_of a) (fix_of b) u.0 }
    ensures { standing result ≡ beside (leg (fix_of a) (fix_of b) (instant u.0)) }
{
    let start = Instant::new(a.t, 0);
    let over = start.until(Instant::new(b.t, 0));
    let gone = start.until(u);
    let x = numerator(a.x, b.x, over, gone);
    let y = numerator(a.y, b.y, over, gone);
    let whole = Point {
        x: rounded(x, over.0),
        y: rounded(y, over.0),
    };
    Spot {
        x,
        y,
        d: over.0,
        whole,
    }
}

// The place on the leg from a to b, or 21 if the moment is strictly inside a silence.
fn heard_on_leg(a: Fix, b: Fix, u: Instant) -> Result<Spot, Refusal>
    requires { OnLeg (fix_of a) (fix_of b) u.0 }
    ensures { placed result
        ≡ unless_silent
        (silent (fix_of a) && strictly_between (fix_of a) (fix_of b) (instant u.0))
        (leg (fix_of a) (fix_of b) (instant u.0)) }
{
    let start = Instant::new(a.t, 0);
    let end = Instant::new(b.t, 0);
    if silent(a) && start < u && u < end {
        return Err(Refusal::MomentInSilence);
    }
    Ok(on_leg(a, b, u))
}

// A fix's own place.
fn alone(a: Fix) -> Spot
    ensures { standing result ≡ beside (own (fix_of a)) }
{
    Spot {
        x: a.x.0 as i64,
        y: a.y.0 as i64,
        d: 1,
        whole: Point { x: a.x, y: a.y },
    }
}

// The place on the first leg whose end isn't earlier than the moment, or 21.
fn place_on(fixes: Fixes<'_>, u: Instant) -> Result<Spot, Refusal>
    requires { Reached (layout fixes.kind) fixes.bytes.now fixes.count u.0 }
    ensures { placed result
        ≡ unless_silent
        (in_silence (trail_of fixes.entry.bytes.now) (instant u.0))
        (place (trail_of fixes.entry.bytes.now) (instant u.0)) }
{
    let mut a = fixes.at(0);
    for k in 1..fixes.count {
        let z = fixes.at(k);
        if u <= Instant::new(z.t, 0) {
            return heard_on_leg(a, z, u);
        }
        a = z;
    }
    Ok(alone(a))
}

// Checks 11, 12 and 21, and the answer, of the fixes of a record that is accepted.
fn place_accepted(fixes: Fixes<'_>, second: Seconds, thousandths: u16) -> Result<Spot, Refusal>
    requires accepted { IsAccepted fixes.bytes.now }
    requires own { FixesOf fixes fixes.bytes.now }
    ensures { placed result ≡ place_answer fixes.entry.bytes.now second.0 thousandths }
{
    if thousandths > 999 {
        return Err(Refusal::BadThousandths);
    }
    let u = Instant::new(second, thousandths);
    let start = Instant::new(fixes.at(0).t, 0);
    let end = Instant::new(fixes.at(fixes.count - 1).t, 0);
    if u < start || end < u {
        return Err(Refusal::BadMoment);
    }
    place_on(fixes, u)
}

// Where the trail of a record is at a moment: a second and so many thousandths.
pub fn place(b: &[u8], second: Seconds, thousandths: u16) -> Result<Spot, Refusal>
    ensures { placed result ≡ place_answer b.now second.0 thousandths }
{
    let fixes = record::accepted(b)?;
    place_accepted(fixes, second, thousandths)
}
