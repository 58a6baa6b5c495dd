// The text form of a score: what a text says, and the text of a piece. The definitions stand in specs/; what runs here says only a reply's numbers.
#![tactic(auto)]

ghost use Rattle.std.specs.Prelude.{◌≡◌, Err};
ghost use Rattle.text.specs.declared.TextError.TheVariants.{BadFile};
ghost use Rattle.text.specs.Replies.{transcript_row};

use contents::{Fault, replied};

// What may stand next in a text.
#[derive(Clone, Copy)]
pub enum Stage {
    // The word `messages`.
    Start,
    // The message of this number, or an event.
    Listing { next: usize },
    // A part or an event: no part stands yet.
    Timed,
    // An item; where no group is open, a part or an event too.
    Playing { depth: usize },
}

// Why a text isn't read into a file, or a file isn't written as text. Where it is, so many bytes stand in the room.
#[derive(Clone, Copy)]
pub enum TextError {
    // The room is too short.
    NoRoom,
    // The first byte that can't be.
    BadText { line: usize, column: usize },
    // The file is refused: of a text, the one that it would make.
    BadFile { fault: Fault },
}

impl From<Fault> for TextError {
    ghost from_gives = { λ x e. e ≡ BadFile x };

    fn from(fault: Fault) -> TextError {
        TextError::BadFile { fault }
    }
}

// A reply's number, its place in the file, its line and column in the text, and how many bytes were written.
#[derive(Clone, Copy)]
pub struct TextReply {
    pub number: usize,
    pub place: usize,
    pub line: usize,
    pub column: usize,
    pub size: usize,
}

// The row of a reply that has no place.
fn row(number: usize, line: usize, column: usize, size: usize) -> TextReply
    ensures { result ≡ record { number = number; place = 0; line = line; column = column; size = size } }
{
    TextReply {
        number,
        place: 0,
        line,
        column,
        size,
    }
}

// The row of a file that is refused.
#[tactic(auto, unfolding(crate::specs::Replies::transcript_row, contents::specs::Replies::reply_of))]
fn file_row(fault: Fault) -> TextReply
    ensures { result ≡ transcript_row (Err (BadFile fault)) }
{
    let r = replied(Err(fault));
    TextReply {
        number: r.number,
        place: r.place,
        line: 0,
        column: 0,
        size: 0,
    }
}

// The reply's numbers.
#[tactic(auto, unfolding(crate::specs::Replies::transcript_row))]
pub fn replied_text(t: Result<usize, TextError>) -> TextReply
    ensures { result ≡ transcript_row t }
{
    match t {
        Ok(size) => row(0, 0, 0, size),
        Err(TextError::NoRoom) => row(2, 0, 0, 0),
        Err(TextError::BadText { line, column }) => row(16, line, column, 0),
        Err(TextError::BadFile { fault }) => file_row(fault),
    }
}
