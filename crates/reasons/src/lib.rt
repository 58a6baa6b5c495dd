// Why something can't be read or written, in words, laid out on lent bytes.
#![tactic(auto)]

pub use line::{unread_line, unwritten_line};

mod line;
mod table;
