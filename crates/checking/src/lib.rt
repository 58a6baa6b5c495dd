// What `check` prints for a file, laid out on lent bytes, and what a run of it over several files comes to.
#![tactic(auto)]

pub use account::{Account, account_line};
pub use line::{Checked, check_line};
pub use run::{Came, Tally, count_file, ending_of, no_files, tally_line, worth_telling};
pub use tallies::action_count;

mod account;
mod line;
mod parts;
mod run;
mod tallies;
