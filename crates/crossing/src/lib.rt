// The questions layer: when a trail crosses a box.
#![tactic(auto)]

ghost use Rattle.std.specs.Prelude.{◌≡◌, ◌<◌};
ghost use Rattle.std.proofs.Math.Option.{none};
ghost use Rattle.record.specs.Answers.{gives, refused};
ghost use Rattle.format.specs.Kinds.{layout};
ghost use Rattle.format.specs.Fixes.{nth};
ghost use Rattle.record.specs.Checks.{IsAccepted};
ghost use Rattle.legs.specs.Legs.{raised, framed};
ghost use Rattle.crossing.specs.Crossing.{first_from, cross_refusal, cross_answer, CrossMeans};
ghost use Rattle.legs.specs.Answers.{meeting};
ghost use Rattle.crossing.specs.Answers.{crossed, box_of};
ghost use Rattle.record.specs.Laws.Trail.{from, FixesOf};
ghost use Rattle.legs.specs.Laws.Legs.{BoxInWidest};
ghost use Rattle.legs.specs.Laws.Ranges.{Reach};
ghost use Rattle.crossing.specs.Laws.Search.{Seekable, time_outside, window_outside, edges_outside};

use distance::{Coordinate, Seconds, silent, since};
use format::{Fixes, limit_of};
use legs::{Fraction, Frame, Raised, leg_first, offset_of, raise};
use record::{Refusal, outside};

// The window of a crossing, both ends included. It and the box stay two parameters, as the public functions take them.
#[derive(Clone, Copy, PartialEq, Eq)]
pub struct Window {
    pub start: Seconds,
    pub end: Seconds,
}

// A box in the unit of the record, its edges included: left and right are the low and the high edge of x, bottom and top those of y.
#[derive(Clone, Copy, PartialEq, Eq)]
pub struct Edges {
    pub left: Coordinate,
    pub right: Coordinate,
    pub bottom: Coordinate,
    pub top: Coordinate,
}

// ---- the box and the fixes, counted

fn framed(e: Edges) -> Frame
    requires { BoxInWidest (box_of e) }
    ensures { result ≡ framed (box_of e) }
{
    Frame {
        left: offset_of(e.left),
        right: offset_of(e.right),
        bottom: offset_of(e.bottom),
        top: offset_of(e.top),
    }
}

// The first fix's second is read anew for each fix, so that no variable of the search keeps a second in more than 16 bits from one leg to the next.
fn raised_at(fixes: Fixes<'_>, k: usize) -> Raised
    requires within { k < fixes.count }
    requires reach { Reach (nth fixes 0).t (nth fixes k) }
    ensures { result ≡ raised (nth fixes.entry 0).t (nth fixes.entry k) }
{
    raise(fixes.at(k), fixes.at(0).t)
}

// ---- the trail

// The first leg that crosses gives the answer.
fn first_crossing(fixes: Fixes<'_>, f: Frame, w: legs::Window) -> Option<Fraction>
    requires { Seekable (layout fixes.kind) fixes.bytes.now fixes.count f }
    ensures { meeting result
        ≡ first_from
        (nth fixes.entry 0).t
        (nth fixes.entry 0)
        (from (nth fixes.entry) 1 fixes.entry.count)
        f
        w.opens.0
        w.closes.0 }
{
    let mut a = raised_at(fixes, 0);
    for k in 1..fixes.count {
        let z = raised_at(fixes, k);
        // A leg is followed to its end, where the next one begins, and a silent one no further than its start.
        let end = if silent(fixes.at(k - 1)) { a } else { z };
        if let Some(x) = leg_first(a, end, f, w) {
            return Some(x);
        }
        a = z;
    }
    leg_first(a, a, f, w)
}

// ---- the checks of the question

fn second_outside(s: Seconds, first: Seconds, last: Seconds) -> bool
    ensures { result ≡ time_outside s.0 first.0 last.0 }
{
    s < first || last < s
}

// Check 13, of the times of the first and the last fix.
fn window_outside(w: Window, first: Seconds, last: Seconds) -> bool
    ensures { result ≡ window_outside w.start.0 w.end.0 first.0 last.0 }
{
    w.end < w.start || second_outside(w.start, first, last) || second_outside(w.end, first, last)
}

// Check 14, by a kind's limit.
fn edges_outside(e: Edges, limit: u32) -> bool
    ensures { result ≡ edges_outside limit (box_of e) }
{
    outside(e.left, limit)
        || outside(e.right, limit)
        || outside(e.bottom, limit)
        || outside(e.top, limit)
        || e.right < e.left
        || e.top < e.bottom
}

// Checks 13 and 14, of the fixes of a record that is accepted.
fn question_says(fixes: Fixes<'_>, w: Window, e: Edges) -> Result<(), Refusal>
    requires accepted { IsAccepted fixes.bytes.now }
    requires own { FixesOf fixes fixes.bytes.now }
    ensures { refused result ≡ cross_refusal fixes.entry.bytes.now w.start.0 w.end.0 (box_of e) }
{
    if window_outside(w, fixes.at(0).t, fixes.at(fixes.count - 1).t) {
        return Err(Refusal::BadWindow);
    }
    if edges_outside(e, limit_of(fixes.kind)) {
        return Err(Refusal::BadBox);
    }
    Ok(())
}

// The crossing's checks: 1 to 9, 20, 13 and 14.
pub fn cross_says(b: &[u8], w: Window, e: Edges) -> Result<(), Refusal>
    ensures { refused result ≡ cross_refusal b.now w.start.0 w.end.0 (box_of e) }
{
    let fixes = record::accepted(b)?;
    question_says(fixes, w, e)
}

// The answer to a question that none of its checks turns away.
pub fn cross_asked(b: &[u8], w: Window, e: Edges) -> Option<Fraction>
    requires { cross_refusal b.now w.start.0 w.end.0 (box_of e) ≡ none }
    ensures { gives (meeting result) ≡ cross_answer b.now w.start.0 w.end.0 (box_of e) }
{
    let fixes = record::fixes_in(b);
    let zero = fixes.at(0).t;
    let opens = since(zero, w.start);
    let closes = since(zero, w.end);
    first_crossing(fixes, framed(e), legs::Window { opens, closes })
}

// Whether the trail of a record crosses a box in a window, and the earliest time in seconds after the first fix.
pub fn crosses(b: &[u8], w: Window, e: Edges) -> Result<Option<Fraction>, Refusal>
    ensures answer { crossed result ≡ cross_answer b.now w.start.0 w.end.0 (box_of e) }
    ensures means { CrossMeans b.now w.start.0 w.end.0 (box_of e) (crossed result) }
{
    cross_says(b, w, e)?;
    Ok(cross_asked(b, w, e))
}
