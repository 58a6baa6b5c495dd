// The lines of a text, read from lent bytes, and the first pass over them: the first fault, or how much there is. Nothing recurses, so groups may nest as deep as the text is long.
#![tactic(auto)]

pub use grammar::{is_over, line};
pub use list::ANY_NUMBER;
pub use stages::after;
pub use tallying::tally_text;

mod grammar;
mod item;
mod list;
mod marks;
mod stages;
mod tallying;
mod words;

// What a line says; a label's bytes stay in the text, from its quote on.
#[derive(Clone, Copy)]
pub enum Found {
    Heading,
    Message {
        start: usize,
        size: usize,
    },
    Event {
        grains: u64,
    },
    Part {
        number: u64,
    },
    Send {
        delay: u64,
        number: u64,
    },
    Group {
        delay: u64,
        synchrony: u64,
        error: u64,
    },
    Close,
}

// A line that was read and the byte behind it. Where none can be read, the first byte that can't be is told instead.
#[derive(Clone, Copy)]
pub struct Step {
    pub found: Found,
    pub next: usize,
}
