// Moving bytes to and from the system so that none is lost in silence: a call that a signal interrupts, or that finds a descriptor not ready, is made again, and every other failure is told.
#![tactic(auto)]

pub use calls::error_number;
pub use ending::{Ending, status_of, tell_ending};
pub use reading::{Broken, read_some, read_whole};
pub use saying::{print, say, say_first};
pub use writing::write_whole;

mod calls;
mod ending;
mod reading;
mod saying;
mod writing;
