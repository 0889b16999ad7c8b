// Ceiling anchors, which report in floats: each reading becomes a place, and nothing is lost on the way.
#![tactic(auto)]

mod count;

ghost use Rattle.std.specs.Prelude.{◌≡◌, ◌≤◌, pos, ◌+ℤ◌, unsigned_abs};
ghost use Rattle.distance.specs.Place.{point_of};
ghost use Rattle.distance.specs.Rounding.{rounded};
ghost use Rattle.record.specs.Checks.{beyond};
ghost use Rattle.record.specs.Answers.{answer, answer_by};
ghost use Rattle.anchors.specs.Anchors.{new_state, anchor_answer, state_after, NothingLost};
ghost use Rattle.anchors.specs.Claim.{after_all, AnchorClaim, reading_of, column_readings};
ghost use Rattle.anchors.specs.Answers.{answered, state_left, exact_of, place_of};
ghost use Rattle.anchors.specs.Laws.Reading.{exactly, check_19, rounded_from, last_exact, moved, Addable};

use crate::count::{Exact, Sixteenths, count_both};
use distance::{Coordinate, Point};
use record::Refusal;

// What an anchor sends, in centimetres: where the cart is, or how far it went since the last place.
#[derive(Clone, Copy, PartialEq)]
pub enum Reading {
    Absolute(f32, f32),
    Step(f32, f32),
}

// The last place, in centimetres, and whether there is one. Whoever hands one in may have put anything there: a place beside a flag, and no option, is the form
// that is handed in and out by value.
#[derive(Clone, Copy, PartialEq)]
pub struct State {
    pub x: f32,
    pub y: f32,
    pub seen: bool,
}

// What a reading answers: the state afterwards, which is as it was if the reading is refused, and its place, rounded to whole centimetres, or the refusal.
#[derive(Clone, Copy)]
pub struct Anchored {
    pub state: State,
    pub place: Result<Point, Refusal>,
}

// Whether a place is outside −16,000 to 16,000 centimetres: of sixteenths there are sixteen times as many.
fn beyond(p: Exact) -> bool
    ensures { result ≡ beyond (exactly (place_of p)) }
{
    let walls = -256000..=256000;
    !(walls.contains(&p.x.0) && walls.contains(&p.y.0))
}

// A number of sixteenths in whole centimetres, by the rule that rounds every place.
fn rounded(n: Sixteenths) -> Coordinate
    ensures { result.0 ≡ rounded n.0 (pos 16) }
{
    distance::rounded(i64::from(n.0), 16)
}

// The new place in whole centimetres, unless it is outside.
fn arrived(p: Exact) -> Result<Point, Refusal>
    ensures { answer_by point_of result ≡ answer (check_19 (place_of p)) (rounded_from (place_of p)) }
{
    if beyond(p) {
        return Err(Refusal::BadNewPlace);
    }
    Ok(Point {
        x: rounded(p.x),
        y: rounded(p.y),
    })
}

// The place from which a step can go: none where check 18 turns the state away.
fn last_place(s: State) -> Option<Exact>
    ensures { exact_of result ≡ last_exact s }
{
    if !s.seen {
        return None;
    }
    count_both(s.x, s.y).filter(|p| !beyond(*p))
}

fn sum(a: Sixteenths, b: Sixteenths) -> Sixteenths
    requires { (unsigned_abs a.0 ≤ 256000) × (unsigned_abs b.0 ≤ 8388608) }
    ensures { result.0 ≡ a.0 +ℤ b.0 }
{
    Sixteenths(a.0 + b.0)
}

// Where a step leads.
fn moved(p: Exact, d: Exact) -> Exact
    requires { Addable (place_of p) (place_of d) }
    ensures { place_of result ≡ moved (place_of p) (place_of d) }
{
    Exact {
        x: sum(p.x, d.x),
        y: sum(p.y, d.y),
    }
}

// An absolute place asks nothing of the state.
fn absolute(x: f32, y: f32) -> Result<Point, Refusal>
    ensures { (s : _) → answer_by point_of result ≡ anchor_answer s (Reading.Absolute x y) }
{
    let place = count_both(x, y).ok_or(Refusal::BadReading)?;
    arrived(place)
}

fn step(s: State, x: f32, y: f32) -> Result<Point, Refusal>
    ensures { answer_by point_of result ≡ anchor_answer s (Reading.Step x y) }
{
    let step = count_both(x, y).ok_or(Refusal::BadReading)?;
    let last = last_place(s).ok_or(Refusal::BadState)?;
    arrived(moved(last, step))
}

impl State {
    // The state that an accepted reading leaves.
    fn after(self, r: Reading) -> State
        ensures { result ≡ new_state self r }
    {
        match r {
            Reading::Absolute(x, y) => State { x, y, seen: true },
            Reading::Step(x, y) => State {
                x: self.x + x,
                y: self.y + y,
                seen: true,
            },
        }
    }
}

// Reads what an anchor sends, given the state that the reading before it left.
pub fn read(s: State, r: Reading) -> Anchored
    ensures answer { answered result ≡ anchor_answer s r }
    ensures state { state_left result ≡ state_after s r }
    ensures exact { NothingLost s r (state_left result) }
{
    let place = match r {
        Reading::Absolute(x, y) => absolute(x, y),
        Reading::Step(x, y) => step(s, x, y),
    };
    let state = if place.is_ok() { s.after(r) } else { s };
    Anchored { state, place }
}

// The columns of the C interface give a reading's kind as a number: 0 is an absolute place, and every other one a step.
fn reading_of(step: u8, x: f32, y: f32) -> Reading
    ensures { result ≡ reading_of step x y }
{
    if step == 0 {
        return Reading::Absolute(x, y);
    }
    Reading::Step(x, y)
}

// Reads a list, each reading given the state that the one before left. Reading k is an absolute place where step[k] is 0, and else a step; there are as many as
// the shortest of the three columns has.
pub fn read_all(s: State, step: &[u8], xs: &[f32], ys: &[f32]) -> State
    ensures state { result ≡ after_all s (column_readings step.now xs.now ys.now) }
    ensures claim { AnchorClaim s (column_readings step.now xs.now ys.now) }
{
    step.iter().zip(xs).zip(ys).fold(
        s,
        |last, ((step, x), y)| read(last, reading_of(*step, *x, *y)).state,
    )
}
