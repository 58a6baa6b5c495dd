// The bytes of a score file laid in lent bytes, for whatever makes a file: numbers, items, message entries, the contents, and all of it in one.
// A place beside the bytes, as in ascii's laying: `Laid` says what stands before it and behind it.
#![tactic(auto)]

pub use bodies::{join, settle_file};
pub use entries::put_entry;
pub use files::put_file;
pub use lasts::set_last;
pub use numbers::{put16, put32};
pub use rows::put_item;

mod bodies;
mod entries;
mod files;
mod lasts;
mod numbers;
mod rows;
