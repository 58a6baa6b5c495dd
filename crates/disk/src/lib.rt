// Files read whole, and written whole or not at all; every failure is told with its error number.
#![tactic(auto)]

pub use failures::SaveError;
pub use files::{open, read_file, read_input, read_opened};
pub use saving::save;

mod failures;
mod files;
mod saving;
