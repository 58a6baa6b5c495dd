// Loops and curves unfolded into an ordinary score. The definitions stand in specs/; what runs here says only a reply's numbers.
#![tactic(auto)]

ghost use Rattle.std.specs.Prelude.{◌≡◌, Err};
ghost use Rattle.unfolding.specs.declared.UnfoldError.TheVariants.{BadFile};
ghost use Rattle.unfolding.specs.Replies.{unfold_row};

use contents::{Fault, replied};

// Why an extended score isn't unfolded. What is granted answers how many bytes stand in the room.
#[derive(Clone, Copy)]
pub enum UnfoldError {
    // The room is too short.
    NoRoom,
    // The contents, or the item at this byte, can't be unfolded.
    BadExtended { place: usize },
    // The unfolded score would break a limit.
    OverLimit,
    // The unfolded file is refused.
    BadFile { fault: Fault },
}

impl From<Fault> for UnfoldError {
    ghost from_gives = { λ x e. e ≡ BadFile x };

    fn from(fault: Fault) -> UnfoldError {
        UnfoldError::BadFile { fault }
    }
}

// A reply's number, its place, of a file's fault in the unfolded file, and how many bytes were written.
#[derive(Clone, Copy)]
pub struct UnfoldReply {
    pub number: usize,
    pub place: usize,
    pub size: usize,
}

fn row(number: usize, place: usize, size: usize) -> UnfoldReply
    ensures { result ≡ record { number = number; place = place; size = size } }
{
    UnfoldReply {
        number,
        place,
        size,
    }
}

// The row of an unfolded file that is refused.
#[tactic(auto, unfolding(crate::specs::Replies::unfold_row, contents::specs::Replies::reply_of))]
fn file_row(fault: Fault) -> UnfoldReply
    ensures { result ≡ unfold_row (Err (BadFile fault)) }
{
    let r = replied(Err(fault));
    row(r.number, r.place, 0)
}

// The reply's numbers.
#[tactic(auto, unfolding(crate::specs::Replies::unfold_row))]
pub fn replied_unfolding(u: Result<usize, UnfoldError>) -> UnfoldReply
    ensures { result ≡ unfold_row u }
{
    match u {
        Ok(size) => row(0, 0, size),
        Err(UnfoldError::NoRoom) => row(2, 0, 0),
        Err(UnfoldError::BadExtended { place }) => row(17, place, 0),
        Err(UnfoldError::OverLimit) => row(18, 0, 0),
        Err(UnfoldError::BadFile { fault }) => file_row(fault),
    }
}
