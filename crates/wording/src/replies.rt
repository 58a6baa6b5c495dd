// The whole reply table for people, a line for each row.
// A place beside the bytes, as in ascii's laying, and each asks for room by a clause: a type around the lent bytes would be built at each call, and taken apart again in it.
ghost use Rattle.std.specs.Prelude.{◌≡◌, ◌+◌, ◌*◌, ◌≤◌, length};
ghost use Rattle.ascii.specs.Laying.{Laid};
ghost use Rattle.wording.specs.Words.{row_number, row_words, reply_rows, row_count, reply_line, row_lines, reply_lines, replies_room, done_number, done_words, row_room, most_words};

use crate::Row;
use crate::figures::put_figure;
use crate::table::{put_text_words, put_unfold_words, put_words};
use ascii::{NEWLINE, SPACE, put_byte, put_bytes};
use contents::{Fault, ItemRule};
use session::{Refusal, refusal_row};
use text::{TextError, replied_text};
use unfolding::{UnfoldError, replied_unfolding};

// Every row of the table in its order, behind the first; where a row's place is a number, any stands for it.
const REPLY_ROWS: [Row; 30] = [
    Row::Call(Refusal::MemoryShort),
    Row::Call(Refusal::RoomShort),
    Row::Text(Err(TextError::NoRoom)),
    Row::Call(Refusal::File(Fault::FileShort)),
    Row::Call(Refusal::File(Fault::BadCount(4))),
    Row::Call(Refusal::File(Fault::BadOffset(0))),
    Row::Call(Refusal::File(Fault::BadLength)),
    Row::Call(Refusal::File(Fault::BadEvent(32))),
    Row::Call(Refusal::File(Fault::BadMessage(36))),
    Row::Call(Refusal::File(Fault::TextLeft)),
    Row::Call(Refusal::BadTempo),
    Row::Call(Refusal::NoSession),
    Row::Call(Refusal::NoEvent),
    Row::Call(Refusal::NotAfter),
    Row::Call(Refusal::BadMillis),
    Row::Call(Refusal::ClockFull),
    Row::Call(Refusal::File(Fault::NoMessage)),
    Row::Text(Err(TextError::BadText { line: 1, column: 1 })),
    Row::Unfold(Err(UnfoldError::BadExtended { place: 0 })),
    Row::Unfold(Err(UnfoldError::BadExtended { place: 40 })),
    Row::Unfold(Err(UnfoldError::OverLimit)),
    Row::Call(Refusal::BadGrace),
    Row::Call(Refusal::File(Fault::BadItem(ItemRule::Kind, 36))),
    Row::Call(Refusal::File(Fault::BadItem(ItemRule::Synchrony, 36))),
    Row::Call(Refusal::File(Fault::BadItem(ItemRule::Part, 36))),
    Row::Call(Refusal::File(Fault::BadItem(ItemRule::Delay, 36))),
    Row::Call(Refusal::File(Fault::BadItem(ItemRule::Event, 36))),
    Row::Call(Refusal::File(Fault::BadItem(ItemRule::Nesting, 36))),
    Row::Call(Refusal::File(Fault::BadItem(ItemRule::Message, 36))),
    Row::Call(Refusal::File(Fault::BadItem(ItemRule::Actions, 36))),
];

// The row's number.
// A `match`, here and for the words: each kind of row has a table of its own, in another crate.
#[tactic(auto, unfolding(crate::specs::Words::row_number))]
pub fn row_number(x: Row) -> usize
    ensures { result ≡ row_number x }
{
    match x {
        Row::Call(c) => refusal_row(c).number,
        Row::Text(t) => replied_text(t).number,
        Row::Unfold(u) => replied_unfolding(u).number,
    }
}

// The row's words, behind the first `at` bytes.
#[tactic(auto, unfolding(crate::specs::Words::row_words))]
pub fn put_row_words(out: &mut [u8], at: usize, x: Row) -> usize
    requires { at + most_words ≤ length out.old }
    ensures { Laid out.old at (row_words x) out.new result × (result ≤ at + most_words) }
{
    match x {
        Row::Call(c) => put_words(out, at, c),
        Row::Text(t) => put_text_words(out, at, t),
        Row::Unfold(u) => put_unfold_words(out, at, u),
    }
}

// The line of the row that is no refusal.
fn put_done(out: &mut [u8], at: usize) -> usize
    requires { at + row_room ≤ length out.old }
    ensures { Laid out.old at (reply_line done_number done_words) out.new result × (result ≤ at + row_room) }
{
    put_bytes(out, at, b"0 done\n")
}

// The line of a row: its number and its words.
fn put_row(out: &mut [u8], at: usize, x: Row) -> usize
    requires { at + row_room ≤ length out.old }
    ensures { Laid out.old at (reply_line (row_number x) (row_words x)) out.new result × (result ≤ at + row_room) }
{
    let at = put_figure(out, at, row_number(x));
    let at = put_byte(out, at, SPACE);
    let at = put_row_words(out, at, x);
    put_byte(out, at, NEWLINE)
}

// The lines of all rows behind the first, behind the first `at` bytes.
fn put_rows(out: &mut [u8], at: usize) -> usize
    requires { at + row_count * row_room ≤ length out.old }
    ensures { Laid out.old at (row_lines reply_rows) out.new result }
{
    let mut end = at;
    for &x in &REPLY_ROWS {
        end = put_row(out, end, x);
    }
    end
}

// The whole table from the front of `out`. Answers its length.
pub fn reply_lines(out: &mut [u8]) -> usize
    requires { replies_room ≤ length out.old }
    ensures { Laid out.old 0 reply_lines out.new result }
{
    let at = put_done(out, 0);
    put_rows(out, at)
}
