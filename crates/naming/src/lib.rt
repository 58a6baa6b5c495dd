// Which message each value of a curve has: the first of the list, as it then stands, with just its digits, else a new one at the list's end.
#![tactic(auto)]

pub use all::name_values;

mod all;
mod copying;
mod keys;
mod places;
mod searches;

// How many messages and bytes of text there are once the values are named.
#[derive(Clone, Copy)]
pub struct Named {
    pub messages: usize,
    pub text: usize,
}
