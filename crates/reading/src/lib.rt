// The record layer: the readers, fix after fix and all fixes at once.
#![tactic(auto)]

mod all;
mod reading;

pub use all::read_all;
pub use reading::{Reader, next, read, read_at, read_on, said, unit_at};
