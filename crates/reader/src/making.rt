// The file of what a text says, from its bodies, and the answer to it.
ghost use Rattle.std.specs.Prelude.{◌≡◌, ◌≤◌, length, take};
ghost use Rattle.ascii.specs.Laying.{Laid};
ghost use Rattle.tokens.specs.Places.{place_behind};
ghost use Rattle.score.specs.Encode.{encode};
ghost use Rattle.text.specs.declared.Stage.TheVariants.{Start};
ghost use Rattle.text.specs.Grammar.{script};
ghost use Rattle.text.specs.Said.{piece_of};
ghost use Rattle.text.specs.Transcripts.{fault_at};
ghost use Rattle.contents.specs.Inner.{Counted};
ghost use Rattle.contents.specs.Limits.{longest_score};
ghost use Rattle.reader.specs.Filled.{Writable, Settles, Sayable, Answers};

use crate::listing::fill_list;
use crate::paging::fill_page;
use contents::limits::LONGEST_SCORE;
use contents::{Counts, check_counts};
use filing::{join, settle_file};
use text::TextError;
use tokens::place_behind;

// The rooms of a file's bodies.
const DURATIONS_ROOM: usize = 1024;

const ITEMS_ROOM: usize = 24576;

const ENTRIES_ROOM: usize = 2048;

const LABELS_ROOM: usize = 24576;

// The second pass: the file of what the text says, from the front of `out`. Answers its length.
fn write_file(text: &[u8], c: Counts, out: &mut [u8]) -> usize
    requires { Writable text.now c out.old }
    ensures { Laid out.old 0 (encode (piece_of (script Start text.now))) out.new result }
{
    let mut entries = [0; ENTRIES_ROOM];
    let mut labels = [0; LABELS_ROOM];
    let page = fill_list(text, &mut entries, &mut labels);
    let mut durations = [0; DURATIONS_ROOM];
    let mut items = [0; ITEMS_ROOM];
    fill_page(text, page, c.messages, &mut durations, &mut items);
    join(out, c, &durations, &items, &entries, &labels)
}

// The file in the room, where it is right.
// It and `settle` of unfolder are two statements each: one function for both would have to say by a law of `From` what each says of its own error.
fn settle(file: &[u8], room: &mut [u8]) -> Result<usize, TextError>
    requires { length file.now ≤ length room.old }
    ensures { Settles file.now room.old room.new result }
{
    settle_file(file, room)?;
    Ok(file.len())
}

// A text whose counts are right: its file is made elsewhere, and the room is touched only where it is right.
fn make(text: &[u8], c: Counts, file: &mut [u8], room: &mut [u8]) -> Result<usize, TextError>
    requires { Sayable text.now c room.old × Counted c × (longest_score ≤ length file.old) }
    ensures { Answers text.now room.old room.new result }
{
    let size = write_file(text, c, file);
    settle(&file[..size], room)
}

// A text without a fault. "a text past a count limit then gets the 4 its file would"
pub fn judge(text: &[u8], c: Counts, room: &mut [u8]) -> Result<usize, TextError>
    requires { Sayable text.now c room.old }
    ensures { Answers text.now room.old room.new result }
{
    check_counts(c)?;
    let mut file = [0; LONGEST_SCORE];
    make(text, c, &mut file, room)
}

// A text with its first fault at this byte.
// A place beside the text, as in tokens: the line is counted from the text's beginning.
pub fn fault(text: &[u8], at: usize) -> Result<usize, TextError>
    requires { at ≤ length text.now }
    ensures { result ≡ fault_at (place_behind (take at text.now)) }
{
    let p = place_behind(&text[..at]);
    Err(TextError::BadText {
        line: p.line,
        column: p.column,
    })
}
