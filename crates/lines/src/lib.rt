// The lines of `play`: reading a line, reading a command off it, and laying out a line to print, on lent bytes.
#![tactic(auto)]

pub use commands::command_in_turn;
pub use input::feed;
pub use output::{bad_line, end_line, message_line, no_line, open_line};

mod commands;
mod input;
mod output;

// What a line asks for.
#[derive(Clone, Copy)]
pub enum Command {
    Open(u64, u64),
    Hear(u64, u64),
    Pass(u64),
}

// What reading on in a chunk has come to: where the next line begins, how many bytes of the line are kept, and whether it has ended.
// A `bool`, since both numbers hold either way: a variant for each would say them twice.
#[derive(Clone, Copy)]
pub struct Fed {
    pub next: usize,
    pub have: usize,
    pub ended: bool,
}
