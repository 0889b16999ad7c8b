// The questions layer: when one leg of a trail is in a box. Whole seconds are 16-bit numbers after the first fix, and places are offsets above the lowest
// one, so that no number is negative. Lengths are in the unit of the record, and nothing here asks which one that is.
#![tactic(auto)]

mod fractions;
mod leg;

use distance::Duration;
pub use leg::{leg_first, offset_of, raise};

// How far a place is above −160,000, the lowest one of the widest kind of record. It serves every kind: from one place to another it is as far, wherever the
// counting begins.
#[derive(Clone, Copy, PartialEq, Eq, PartialOrd, Ord)]
pub struct Offset(pub u32);

// How far it is from one place of an axis to another: a length, where an offset is a place and a tolerance is asked for.
#[derive(Clone, Copy, PartialEq, Eq, PartialOrd, Ord)]
pub struct Extent(pub u32);

// A fix in seconds after the first one, no number of it negative.
#[derive(Clone, Copy)]
pub struct Raised {
    pub t: Duration,
    pub x: Offset,
    pub y: Offset,
}

// A box, no number of it negative.
#[derive(Clone, Copy, PartialEq, Eq)]
pub struct Frame {
    pub left: Offset,
    pub right: Offset,
    pub bottom: Offset,
    pub top: Offset,
}

// A window, in seconds after the first fix, both ends included.
#[derive(Clone, Copy)]
pub struct Window {
    pub opens: Duration,
    pub closes: Duration,
}

// The time num/den seconds after the first fix. Equal are two of one form: 1/2 isn't 2/4.
#[derive(Clone, Copy, PartialEq, Eq)]
pub struct Fraction {
    pub num: u64,
    pub den: u32,
}

// The times from the first to the last, both included.
#[derive(Clone, Copy, PartialEq, Eq)]
pub struct Times {
    pub first: Fraction,
    pub last: Fraction,
}
