// The questions and the lists of agings, for programs in other languages.
ghost use Rattle.std.specs.Prelude.{◌≡◌};
ghost use Rattle.distance.specs.Place.{point_at, point_of};
ghost use Rattle.distance.specs.Box.{box_with};
ghost use Rattle.format.specs.Format.{never, mark_field};
ghost use Rattle.record.specs.Checks.{IsAccepted};
ghost use Rattle.moment.specs.Answers.{placed};
ghost use Rattle.crossing.specs.Answers.{crossed, box_of};
ghost use Rattle.approach.specs.Answers.{approached};
ghost use Rattle.moment.specs.Moment.{place_answer};
ghost use Rattle.crossing.specs.Crossing.{cross_answer, CrossMeans};
ghost use Rattle.approach.specs.Approach.{near_answer, NearMeans};
ghost use Rattle.questions.specs.Agings.{run, run_answer, after_answer, left_after, near_after_answer, near_left_after, calls_of};
ghost use Rattle.questions.specs.Answers.{ran};
ghost use Rattle.questions.specs.Claim.{Claim};
ghost use Rattle.export.specs.Interface.{spot_numbers, crossing_numbers, approach_numbers, run_numbers};

use crate::{Approach, Crossing, Run, Spot, number};
use approach::Radius;
use crossing::{Edges, Window};
use distance::{Coordinate, Point, Seconds};
use legs::Fraction;
use record::Refusal;

// Where the trail is.
impl From<Result<moment::Spot, Refusal>> for Spot {
    ghost from_gives = { λ said numbers. numbers ≡ spot_numbers (placed said) };

    fn from(said: Result<moment::Spot, Refusal>) -> Spot {
        match said {
            Ok(s) => Spot {
                refusal: 0,
                denominator: s.d,
                x: s.x,
                y: s.y,
                whole_x: s.whole.x.0,
                whole_y: s.whole.y.0,
            },
            Err(refusal) => Spot {
                refusal: number(refusal),
                denominator: 0,
                x: 0,
                y: 0,
                whole_x: 0,
                whole_y: 0,
            },
        }
    }
}

// Whether it crosses a box.
impl From<Result<Option<Fraction>, Refusal>> for Crossing {
    ghost from_gives = { λ said numbers. numbers ≡ crossing_numbers (crossed said) };

    fn from(said: Result<Option<Fraction>, Refusal>) -> Crossing {
        match said {
            Ok(Some(time)) => Crossing {
                refusal: 0,
                crosses: 1,
                numerator: time.num,
                denominator: time.den,
            },
            Ok(None) => Crossing {
                refusal: 0,
                crosses: 0,
                numerator: 0,
                denominator: 0,
            },
            Err(refusal) => Crossing {
                refusal: number(refusal),
                crosses: 0,
                numerator: 0,
                denominator: 0,
            },
        }
    }
}

// Whether it comes near a point.
impl From<Result<Option<approach::Approach>, Refusal>> for Approach {
    ghost from_gives = { λ said numbers. numbers ≡ approach_numbers (approached said) };

    fn from(said: Result<Option<approach::Approach>, Refusal>) -> Approach {
        match said {
            Ok(Some(time)) => Approach {
                refusal: 0,
                approaches: 1,
                leg: time.leg,
                numerator: time.num,
                denominator: time.den,
            },
            Ok(None) => Approach {
                refusal: 0,
                approaches: 0,
                leg: 0,
                numerator: 0,
                denominator: 0,
            },
            Err(refusal) => Approach {
                refusal: number(refusal),
                approaches: 0,
                leg: 0,
                numerator: 0,
                denominator: 0,
            },
        }
    }
}

// How many calls of a list were turned away.
impl From<Result<usize, Refusal>> for Run {
    ghost from_gives = { λ said numbers. numbers ≡ run_numbers (ran said) };

    fn from(said: Result<usize, Refusal>) -> Run {
        match said {
            Ok(turned_away) => Run {
                refusal: 0,
                turned_away,
            },
            Err(refusal) => Run {
                refusal: number(refusal),
                turned_away: 0,
            },
        }
    }
}

fn window(start: u32, end: u32) -> Window
    ensures { (result.start.0 ≡ start) × (result.end.0 ≡ end) }
{
    Window {
        start: Seconds(start),
        end: Seconds(end),
    }
}

fn edges(left: i32, right: i32, bottom: i32, top: i32) -> Edges
    ensures { box_of result ≡ box_with left right bottom top }
{
    Edges {
        left: Coordinate(left),
        right: Coordinate(right),
        bottom: Coordinate(bottom),
        top: Coordinate(top),
    }
}

fn point(x: i32, y: i32) -> Point
    ensures { point_of result ≡ point_at x y }
{
    Point {
        x: Coordinate(x),
        y: Coordinate(y),
    }
}

// Where the trail is, so many thousandths after a second.
#[unsafe(no_mangle)]
pub extern "C" fn trails_place(b: &[u8], second: u32, thousandths: u16) -> Spot
    ensures { result ≡ spot_numbers (place_answer b.now second thousandths) }
{
    Spot::from(moment::place(b, Seconds(second), thousandths))
}

// Whether the trail crosses a box in a window.
#[unsafe(no_mangle)]
pub extern "C" fn trails_crosses(
    b: &[u8],
    start: u32,
    end: u32,
    left: i32,
    right: i32,
    bottom: i32,
    top: i32,
) -> Crossing
    ensures { (result ≡ crossing_numbers (cross_answer b.now start end (box_with left right bottom top))) × CrossMeans b.now start end (box_with left right bottom top) (cross_answer b.now start end (box_with left right bottom top)) }
{
    let w = window(start, end);
    let e = edges(left, right, bottom, top);
    Crossing::from(crossing::crosses(b, w, e))
}

// Whether the trail comes within a radius of a point.
#[unsafe(no_mangle)]
pub extern "C" fn trails_near(b: &[u8], x: i32, y: i32, radius: u32) -> Approach
    ensures { (result ≡ approach_numbers (near_answer b.now (point_at x y) radius)) × NearMeans b.now (point_at x y) radius (near_answer b.now (point_at x y) radius) }
{
    Approach::from(approach::near(b, point(x, y), Radius(radius)))
}

// Makes the agings of a list, one after the other, each by days with its own of the lent tables.
#[unsafe(no_mangle)]
pub extern "C" fn trails_run(b: &mut [u8], calls: &[u64], tables: &[u16]) -> Run
    ensures { (result ≡ run_numbers (run_answer b.old (calls_of tables.now calls.now))) × (b.new ≡ run b.old (calls_of tables.now calls.now)) }
{
    Run::from(questions::call_all(b, calls, tables))
}

// Makes the agings of a list, one after the other, and then asks whether what is left crosses a box in a window; a question that is refused is refused
// first, and then nothing is done.
#[unsafe(no_mangle)]
pub extern "C" fn trails_crosses_after(
    b: &mut [u8],
    calls: &[u64],
    tables: &[u16],
    start: u32,
    end: u32,
    left: i32,
    right: i32,
    bottom: i32,
    top: i32,
) -> Crossing
    ensures { (result ≡ crossing_numbers (after_answer b.old (calls_of tables.now calls.now) start end (box_with left right bottom top))) × (b.new ≡ left_after b.old (calls_of tables.now calls.now) start end (box_with left right bottom top)) × (IsAccepted b.old → mark_field b.old ≡ never → Claim b.old (calls_of tables.now calls.now)) }
{
    Crossing::from(questions::crosses_after(
        b,
        calls,
        tables,
        window(start, end),
        edges(left, right, bottom, top),
    ))
}

// The same with a radius question in the crossing's place.
#[unsafe(no_mangle)]
pub extern "C" fn trails_near_after(
    b: &mut [u8],
    calls: &[u64],
    tables: &[u16],
    x: i32,
    y: i32,
    radius: u32,
) -> Approach
    ensures { (result ≡ approach_numbers (near_after_answer b.old (calls_of tables.now calls.now) (point_at x y) radius)) × (b.new ≡ near_left_after b.old (calls_of tables.now calls.now) (point_at x y) radius) × (IsAccepted b.old → mark_field b.old ≡ never → Claim b.old (calls_of tables.now calls.now)) }
{
    Approach::from(questions::near_after(b, calls, tables, point(x, y), Radius(radius)))
}
