// The distance layer: units, the fix, how far an inner fix of a span is from the chord of its two ends, and a place rounded.
#![tactic(auto)]

mod shown;
pub mod squares;
pub mod words;

ghost use Rattle.std.specs.Prelude.{◌≡◌, ◌+◌, ◌≤◌, pos, ◌-ℤ◌};
ghost use Rattle.distance.specs.Fix.{fix_of};
ghost use Rattle.distance.specs.Distance.{N, Nx, Ny, allowance};
ghost use Rattle.distance.specs.Rounding.{half_up, rounded};
ghost use Rattle.distance.specs.Silence.{silent};
ghost use Rattle.distance.specs.Span.{Chord, Between, Roundable};

// A time on the fixes' own clock. Times and lengths have types of their own, so that neither can stand for the other.
#[derive(Clone, Copy, PartialEq, Eq, PartialOrd, Ord)]
pub struct Seconds(pub u32);

// Whole seconds from one time of a record to a later one, which its checks keep to 65,535: how long a span or a leg takes, and, counted from the first fix,
// when a leg begins and when a window opens and closes. It is neither a time on the clock nor a length.
#[derive(Clone, Copy, PartialEq, Eq, PartialOrd, Ord)]
pub struct Duration(pub u16);

// A coordinate of a place, in the unit of the record that it is of: the record's kind says which. The work below is the same in every unit.
#[derive(Clone, Copy, PartialEq, Eq, PartialOrd, Ord)]
pub struct Coordinate(pub i32);

// A length that isn't negative, in the record's unit: how far a dropped fix may be from its chord.
#[derive(Clone, Copy, PartialEq, Eq, PartialOrd, Ord)]
pub struct Tolerance(pub u16);

// A point of the plane, in whole numbers of a unit: one that is asked about, or a place rounded.
#[derive(Clone, Copy, PartialEq, Eq)]
pub struct Point {
    pub x: Coordinate,
    pub y: Coordinate,
}

// What follows a fix: 1 is a silence, and 0 none. A record's byte may say anything; check 20 turns the rest away.
#[derive(Clone, Copy, PartialEq, Eq)]
pub struct Silence(pub u8);

#[derive(Clone, Copy, PartialEq, Eq)]
pub struct Fix {
    pub t: Seconds,
    pub x: Coordinate,
    pub y: Coordinate,
    pub silence: Silence,
}

// The seconds from a to b, two times of one record. Nowhere else does a time on the clock become a number of 16 bits: check 9 has passed by then, and for the end
// of a window check 13.
pub fn since(a: Seconds, b: Seconds) -> Duration
    requires { (a.0 ≤ b.0) × (b.0 ≤ a.0 + 65535) }
    ensures { pos result.0 ≡ pos b.0 -ℤ pos a.0 }
{
    Duration((b.0 - a.0) as u16)
}

// N of one axis: d is the whole span's time, s the time from its start to m.
fn axis_deviation(i: Coordinate, m: Coordinate, j: Coordinate, d: Duration, s: Duration) -> i64
    ensures { result ≡ N i.0 m.0 j.0 (pos d.0) (pos s.0) }
{
    let start = i.0 as i64;
    ((m.0 as i64) - start) * (d.0 as i64) - ((j.0 as i64) - start) * (s.0 as i64)
}

// Nx and Ny of the inner fix m of the span from i to j.
fn deviations(i: Fix, m: Fix, j: Fix) -> (i64, i64)
    requires { Between (fix_of i) (fix_of m) (fix_of j) }
    ensures { (result.0 ≡ Nx (fix_of i) (fix_of m) (fix_of j)) × (result.1 ≡ Ny (fix_of i) (fix_of m) (fix_of j)) }
{
    let d = since(i.t, j.t);
    let s = since(i.t, m.t);
    (
        axis_deviation(i.x, m.x, j.x, d, s),
        axis_deviation(i.y, m.y, j.y, d, s),
    )
}

// e²·D² of the span from i to j.
pub fn allowance(e: Tolerance, i: Fix, j: Fix) -> u64
    requires { Chord (fix_of i) (fix_of j) }
    ensures { result ≡ allowance e.0 (fix_of i) (fix_of j) }
{
    let d = since(i.t, j.t);
    let reach = (e.0 as u64) * (d.0 as u64);
    reach * reach
}

// n/d, of numbers that aren't negative: the nearest whole number, halves upward.
fn half_up(n: u64, d: u32) -> i32
    requires { Roundable (pos n) d }
    ensures { result ≡ pos (half_up n d) }
{
    let over = d as u64;
    ((2 * n + over) / (2 * over)) as i32
}

// One axis of a place, n/d, rounded: the nearest whole number, halves away from 0. The magnitude is rounded and then gets the sign of n, so that both sides
// of 0 are treated alike.
pub fn rounded(n: i64, d: u32) -> Coordinate
    requires { Roundable n d }
    ensures { result.0 ≡ rounded n (pos d) }
{
    let whole = half_up(n.unsigned_abs(), d);
    Coordinate(if n < 0 { -whole } else { whole })
}

// Whether a silence follows a fix.
pub fn silent(f: Fix) -> bool
    ensures { result ≡ silent (fix_of f) }
{
    f.silence.0 == 1
}
