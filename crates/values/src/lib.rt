// The values of a curve, and the messages that they are sent as. A signed 32-bit value is held raised, as its distance from the least one, so that no number
// here has a sign.
#![tactic(auto)]

pub use curve::{curve_value, raised};
pub use digits::put_value;

mod curve;
mod digits;
