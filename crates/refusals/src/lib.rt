// A refusal told to people, laid out on lent bytes: its line, with the entry at fault.
#![tactic(auto)]

pub use line::refusal_line;
pub use texts::{misfit_line, misread_line, room_line, unmade_line};
pub use unfolds::{folded_entry, folded_line};

mod entries;
mod line;
mod texts;
mod unfolds;
