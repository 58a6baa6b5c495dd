// What waits in a session's words and what of it is sent: slots decided by outcomes, and due messages laid in the send room by due date and then page place.
#![tactic(auto)]

pub mod due;
mod room;
pub mod slots;
