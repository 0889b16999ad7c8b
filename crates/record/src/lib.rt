// The record layer: the checks that every call makes of a record.
#![tactic(auto)]

mod checking;
mod refusal;

pub use checking::{accepted, check, fixes_in, outside, scan_first, scan_next, scan_says};
use distance::Seconds;
pub use refusal::Refusal;

// What checks 7 to 9 and 20 ask of the fixes passed so far: was a place outside, was a time not later than the one before, was a silence byte neither 0 nor 1,
// the first and the last time, and whether the last fix says that silence follows. No value hangs on a flag, so none is an option.
#[derive(Clone, Copy)]
pub struct Scan {
    pub outside: bool,
    pub early: bool,
    pub other: bool,
    pub first: Seconds,
    pub last: Seconds,
    pub silent: bool,
}
