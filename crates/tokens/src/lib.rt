// The tokens of the text form, read from lent bytes: blanks, words, numbers, beats and labels, and the line and column of a byte.
// A reader takes the whole text and the byte to begin at: what can't be is told by its place in the whole text, so that a slice of what is left, or a struct of both,
// would be taken apart again for each answer.
#![tactic(auto)]

pub use blanks::past_blanks;
pub use delays::{FIELD, SLASH, beats};
pub use labels::{is_escaped, label, put_label};
pub use numbers::number;
pub use places::place_behind;
pub use words::{is_letter, is_word};

mod blanks;
mod delays;
mod labels;
mod numbers;
mod places;
mod words;

// What was read, a number's or a delay's value or a label's size, and the byte behind it. Where nothing is, the first byte that can't be is told instead.
#[derive(Clone, Copy)]
pub struct Token {
    pub value: u64,
    pub next: usize,
}

// Where a byte of a text stands, as editors count.
#[derive(Clone, Copy)]
pub struct Place {
    pub line: usize,
    pub column: usize,
}
