// One leg: the times at which each axis is between its edges, and the first time at which all conditions hold.
ghost use Rattle.std.specs.Prelude.{◌≡◌, ◌+◌, ◌*◌, ◌-◌};
ghost use Rattle.distance.specs.Fix.{fix_of};
ghost use Rattle.legs.specs.Legs.{times, moving, axis_times, leg_times, leg_first, offset_of, raised};
ghost use Rattle.legs.specs.Answers.{meeting};
ghost use Rattle.legs.specs.Laws.Legs.{InWidest};
ghost use Rattle.legs.specs.Laws.Ranges.{LegFits, Reach};

use crate::{Extent, Fraction, Frame, Offset, Raised, Times, Window};
use distance::{Coordinate, Duration, Fix, Seconds};
use std::cmp::Ordering;

impl Offset {
    // How far it is above another, or 0.
    fn above(self, low: Offset) -> Extent
        ensures { result.0 ≡ self.0 - low.0 }
    {
        Extent(self.0.saturating_sub(low.0))
    }
}

impl Window {
    // All times of the window.
    fn whole(self) -> Times
        ensures { result ≡ times self.opens.0 self.closes.0 1 }
    {
        Times::over(1, u64::from(self.opens.0), u64::from(self.closes.0))
    }
}

// When a leg begins, and how long it takes.
#[derive(Clone, Copy)]
struct Timing {
    start: Duration,
    takes: Duration,
}

impl Timing {
    // All times of the leg.
    fn whole(self) -> Times
        ensures { result ≡ times self.start.0 (self.start.0 + self.takes.0) 1 }
    {
        let start = u64::from(self.start.0);
        Times::over(1, start, start + u64::from(self.takes.0))
    }

    // The time at which n of the v units are gone, times v.
    fn gone(self, v: Extent, n: Extent) -> u64
        ensures { result ≡ self.start.0 * v.0 + self.takes.0 * n.0 }
    {
        u64::from(self.start.0) * u64::from(v.0) + u64::from(self.takes.0) * u64::from(n.0)
    }

    // From n of the v units to m of them.
    fn moving(self, v: Extent, n: Extent, m: Extent) -> Times
        ensures { result ≡ moving self.start.0 self.takes.0 v.0 n.0 m.0 }
    {
        Times::over(v.0, self.gone(v, n), self.gone(v, m))
    }

    // When an axis that goes from a to b is between its edges: rising, falling or at rest.
    // `low` and `high` stay two parameters: nothing but this takes an axis's edges, and the frame has all four.
    #[tactic(auto, unfolding(crate::specs::Legs::axis_times))]
    fn axis(self, a: Offset, b: Offset, low: Offset, high: Offset) -> Times
        ensures { result ≡ axis_times self.start.0 self.takes.0 a.0 b.0 low.0 high.0 }
    {
        match a.cmp(&b) {
            Ordering::Less if high < a => Times::NONE,
            Ordering::Less => self.moving(b.above(a), low.above(a), high.above(a)),
            Ordering::Greater if a < low => Times::NONE,
            Ordering::Greater => self.moving(a.above(b), a.above(high), a.above(low)),
            Ordering::Equal if a < low || high < a => Times::NONE,
            Ordering::Equal => self.whole(),
        }
    }
}

// The times of the leg and of the window at which the leg is in the box.
#[tactic(auto, unfolding(crate::specs::Legs::leg_times))]
fn leg_times(a: Raised, b: Raised, f: Frame, w: Window) -> Times
    requires { LegFits a b f }
    ensures { result ≡ leg_times a b f w.opens.0 w.closes.0 }
{
    let leg = Timing {
        start: a.t,
        takes: Duration(b.t.0 - a.t.0),
    };
    let x = leg.axis(a.x, b.x, f.left, f.right);
    let y = leg.axis(a.y, b.y, f.bottom, f.top);
    leg.whole().both(w.whole()).both(x).both(y)
}

// The first of them, if there is one.
#[tactic(auto, using(crate::proofs::Laws::Ranges::leg_fits), unfolding(crate::specs::Legs::leg_first))]
pub fn leg_first(a: Raised, b: Raised, f: Frame, w: Window) -> Option<Fraction>
    requires { LegFits a b f }
    ensures { meeting result ≡ leg_first a b f w.opens.0 w.closes.0 }
{
    leg_times(a, b, f, w).first_of()
}

// ---- places counted from −160,000 on, times from the first fix on

pub fn offset_of(c: Coordinate) -> Offset
    requires { InWidest c.0 }
    ensures { result.0 ≡ offset_of c.0 }
{
    Offset((c.0 + 160000) as u32)
}

pub fn raise(f: Fix, zero: Seconds) -> Raised
    requires { Reach zero.0 (fix_of f) }
    ensures { result ≡ raised zero.0 (fix_of f) }
{
    Raised {
        t: distance::since(zero, f.t),
        x: offset_of(f.x),
        y: offset_of(f.y),
    }
}
