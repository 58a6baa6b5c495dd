// What people are told of a run on standard error: why the opening was refused, that the first line opens nothing, and why something can't be read or written.
#![tactic(auto)]

pub use said::{after_line, say_empty, say_unread, say_unwritten};

mod said;
