// One leg: where on it the cart is closest to the point, and whether that is within the radius.
ghost use Rattle.std.specs.Prelude.{◌≡◌, ◌≤◌, ◌-ℤ◌};
ghost use Rattle.distance.specs.Fix.{fix_of};
ghost use Rattle.distance.specs.Place.{point_of};
ghost use Rattle.approach.specs.Approach.{toward, along, length_squared, dot, heard_part, silent_part, near_part, leg_near};
ghost use Rattle.approach.specs.Answers.{nearing};
ghost use Rattle.approach.specs.Laws.Tests.{cross_product, near_end, near_inside};
ghost use Rattle.approach.specs.Laws.Ranges.{longest, Short, NearFits};

use crate::{Part, Radius, Vector};
use distance::squares::square_at_most;
use distance::{Coordinate, Fix, Point, silent};

// A pass by the point c on the leg from a to b, with the radius r that is asked.
#[derive(Clone, Copy)]
pub(crate) struct Pass {
    pub a: Fix,
    pub b: Fix,
    pub c: Point,
    pub r: Radius,
    ghost fits: { NearFits (fix_of a) (fix_of b) (point_of c) r.0 },
}

// From one coordinate to another.
fn axis(from: Coordinate, to: Coordinate) -> i64
    ensures { result ≡ to.0 -ℤ from.0 }
{
    (to.0 as i64) - (from.0 as i64)
}

// From a fix to a place: the point, or the leg's end.
fn toward(a: Fix, c: Point) -> Vector
    ensures { result ≡ toward (fix_of a) (point_of c) }
{
    Vector {
        x: axis(a.x, c.x),
        y: axis(a.y, c.y),
    }
}

// Each asks for short vectors itself, and not the type: the definitions have vectors between any two places.
impl Vector {
    // The square of its length.
    fn length_squared(self) -> u64
        requires { Short self }
        ensures { result ≡ length_squared self }
    {
        (self.x * self.x) as u64 + (self.y * self.y) as u64
    }

    fn dot(self, w: Vector) -> i64
        requires { Short self × Short w }
        ensures { result ≡ dot self w }
    {
        self.x * w.x + self.y * w.y
    }

    fn cross_product(self, w: Vector) -> i64
        requires { Short self × Short w }
        ensures { result ≡ cross_product self w }
    {
        self.x * w.y - self.y * w.x
    }
}

// The end of the leg that is num of it, 0 or 1, from which v goes to the point.
fn end_near(v: Vector, r: Radius, num: u64) -> Option<Part>
    requires { Short v × (r.0 ≤ longest) }
    ensures { nearing result ≡ near_end num v r.0 }
{
    let reach = r.0 as u64;
    (v.length_squared() <= reach * reach).then_some(Part { num, den: 1 })
}

// The foot of the perpendicular from the point, inside the leg: p goes from the leg's start to the point and m along the leg, and the point is |p × m| / |m| away.
fn inside_near(p: Vector, m: Vector, foot: Part, r: Radius) -> Option<Part>
    requires { Short p × Short m × (r.0 ≤ longest) }
    ensures { nearing result ≡ near_inside p m foot r.0 }
{
    let reach = r.0 as u64;
    let aside = p.cross_product(m).unsigned_abs();
    square_at_most(
        aside,
        reach * m.x.unsigned_abs(),
        reach * m.y.unsigned_abs(),
    )
    .then_some(foot)
}

// The three are made a part of the search, so that no pass is put together in memory.
impl Pass {
    // A leg with no silence: its start, its end, or the foot of the perpendicular between them.
    #[inline(always)]
    fn heard_near(self) -> Option<Part>
        ensures { nearing result
            ≡ near_part
            (heard_part (fix_of self.a) (fix_of self.b) (point_of self.c))
            (toward (fix_of self.a) (point_of self.c))
            (along (fix_of self.a) (fix_of self.b))
            self.r.0 }
    {
        let p = toward(self.a, self.c);
        let end = Point {
            x: self.b.x,
            y: self.b.y,
        };
        let m = toward(self.a, end);
        let foot = p.dot(m);
        if foot <= 0 {
            return end_near(p, self.r, 0);
        }
        let num = foot as u64;
        let den = m.length_squared();
        if den <= num {
            return end_near(toward(self.b, self.c), self.r, 1);
        }
        inside_near(p, m, Part { num, den }, self.r)
    }

    // A silent leg: the nearer of its two ends, the start if they are as near.
    #[inline(always)]
    fn silent_near(self) -> Option<Part>
        ensures { nearing result
            ≡ near_part
            (silent_part (fix_of self.a) (fix_of self.b) (point_of self.c))
            (toward (fix_of self.a) (point_of self.c))
            (along (fix_of self.a) (fix_of self.b))
            self.r.0 }
    {
        let p = toward(self.a, self.c);
        let q = toward(self.b, self.c);
        if p.length_squared() <= q.length_squared() {
            return end_near(p, self.r, 0);
        }
        end_near(q, self.r, 1)
    }

    // Where on the leg the cart is closest to the point, if that is within the radius.
    #[inline(always)]
    pub(crate) fn leg_near(self) -> Option<Part>
        ensures { nearing result ≡ leg_near (fix_of self.a) (fix_of self.b) (point_of self.c) self.r.0 }
    {
        if silent(self.a) {
            return self.silent_near();
        }
        self.heard_near()
    }
}
