// A text read into the file of what it says, in two passes: the first counts or finds the fault, the second fills the file. No public call has a `requires`, and a
// refusal leaves every lent byte.
#![tactic(auto)]

ghost use Rattle.std.specs.Prelude.{◌≡◌, length};
ghost use Rattle.text.specs.Said.{said};
ghost use Rattle.text.specs.Transcripts.{read_answer, room_left, file_of};

use contents::limits::LONGEST_SCORE;
use making::{fault, judge};
use script::tally_text;
use text::TextError;

mod listing;
mod making;
mod paging;
mod turns;

// Reads a text and puts the file of what it says at the front of the room.
pub fn read_text(text: &[u8], room: &mut [u8]) -> Result<usize, TextError>
    ensures value { result ≡ read_answer (length room.old) text.now }
    ensures room_after { room.new ≡ room_left result (file_of (said text.now)) room.old }
{
    if room.len() < LONGEST_SCORE {
        return Err(TextError::NoRoom);
    }
    match tally_text(text) {
        Ok(counts) => judge(text, counts, room),
        Err(at) => fault(text, at),
    }
}
