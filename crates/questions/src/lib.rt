// The questions layer: what the questions still say after any list of agings.
#![tactic(auto)]

mod agings;

pub use agings::{call_all, crosses_after, near_after};
