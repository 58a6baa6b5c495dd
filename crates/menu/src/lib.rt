// The commands of `bin/poolmirror`: a row for each, what `help` prints of them, and looking one up by its name.
#![tactic(auto)]

pub use listing::help_text;
pub use table::{Entry, entry_of, find_command};

mod listing;
mod table;

#[derive(Clone, Copy)]
pub enum Command {
    Check,
    Play,
    Read,
    Write,
    Unfold,
    Replies,
    Help,
}
