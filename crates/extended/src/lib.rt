// The extended score: a score with loops and curves, before it is unfolded. What stands where in its bytes.
#![tactic(auto)]

use page::Item;

// "Kind 2 is a loop, 3 a curve"
pub const CURVE: usize = 3;

mod folds;
pub mod layout;

pub use folds::{folded_at, points_of};
pub use layout::extent_of;

// The table of contents: how many of each there are.
#[derive(Clone, Copy)]
pub struct Extent {
    pub events: usize,
    pub items: usize,
    pub messages: usize,
    pub text: usize,
    pub points: usize,
}

// An item of an extended score: kind 2 is a loop, 3 a curve.
#[derive(Clone, Copy)]
pub struct Folded {
    pub item: Item,
    // A loop's period, a curve's step.
    pub each: usize,
    // A loop's passes, a curve's points.
    pub times: usize,
    pub pad: usize,
}
