// The questions layer: when a trail comes near a point.
#![tactic(auto)]

mod leg;
mod trail;

pub use trail::{near, near_asked, near_says};

// How far from the point still counts as near, in the unit of the record. In millimetres it may be up to 320,000, more than a `Tolerance` holds.
#[derive(Clone, Copy)]
pub struct Radius(pub u32);

// How far it is from one place to another, along each axis.
#[derive(Clone, Copy)]
pub struct Vector {
    pub x: i64,
    pub y: i64,
}

// The part num/den of a leg's time.
#[derive(Clone, Copy)]
pub struct Part {
    pub num: u64,
    pub den: u64,
}

// The first leg that comes near, counted from 0, and the time num/den seconds after the first fix at which it is closest.
#[derive(Clone, Copy)]
pub struct Approach {
    pub leg: u32,
    pub num: u64,
    pub den: u64,
}
