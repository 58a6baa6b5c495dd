// The items of an extended score as a table of words, with how many values each curve has, and the values of all its curves, in page order.
#![tactic(auto)]

mod counting;
mod filling;
mod reading;
mod rows;

pub use filling::fill_values;
pub use rows::fill_table;
