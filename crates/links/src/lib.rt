// Where a path leads: what stands there, links followed as the system follows them, and the folder that it is in. Every failure is told with its error number.
#![tactic(auto)]

pub use faults::{answered, reason, told};
pub use following::{Found, find};
pub use looking::{Way, has_permissions};
pub use paths::{PATH_ROOM, folder_size, text_of};

mod faults;
mod following;
mod looking;
mod paths;
