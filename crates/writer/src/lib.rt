// The text of a score file, in "the one form": what is written is what a composer signs.
#![tactic(auto)]

ghost use Rattle.std.specs.Prelude.{◌≡◌, length};
ghost use Rattle.score.specs.Piece.{decode};
ghost use Rattle.text.specs.Written.{written};
ghost use Rattle.text.specs.Transcripts.{fitted, write_answer, room_left};

use ascii::put_bytes;
use pages::put_text;
use score::{AcceptedFile, check_file};
use text::TextError;

mod fractions;
mod nesting;
mod pages;
mod phrases;
mod quoting;

// "A text room of 262,144 bytes always holds it, as a named constant says."
pub const TEXT_ROOM: usize = 262144;

// The text in the room, where that is long enough.
fn put_whole(text: &[u8], room: &mut [u8]) -> Result<usize, TextError>
    ensures value { result ≡ fitted (length room.old) text.now }
    ensures room_after { room.new ≡ room_left result text.now room.old }
{
    if room.len() < text.len() {
        return Err(TextError::NoRoom);
    }
    put_bytes(room, 0, text);
    Ok(text.len())
}

// The text is made in an array of its own: how long it is, is known when it stands there.
fn write_accepted(file: AcceptedFile<'_>, room: &mut [u8]) -> Result<usize, TextError>
    ensures value { result ≡ fitted (length room.old) (written (decode file.entry.bytes.now)) }
    ensures room_after { room.new ≡ room_left result (written (decode file.entry.bytes.now)) room.old }
{
    let mut text = [0u8; TEXT_ROOM];
    let size = put_text(file, &mut text);
    put_whole(&text[..size], room)
}

// Writes the file's text to the front of the room. A refusal leaves the room.
pub fn write_text(file: &[u8], room: &mut [u8]) -> Result<usize, TextError>
    ensures value { result ≡ write_answer (length room.old) file.now }
    ensures room_after { room.new ≡ room_left result (written (decode file.now)) room.old }
{
    check_file(file)?;
    write_accepted(AcceptedFile { bytes: file }, room)
}
