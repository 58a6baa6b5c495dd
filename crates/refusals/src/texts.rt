// The lines that tell people of a text that is refused.
// A place beside the bytes, as in ascii's laying, and each asks for room by a clause: a type around the lent bytes would be built at each call, and taken apart again in it.
// Counts, refusal and hint are parameters apart, since the lines take different ones of them.
ghost use Rattle.std.specs.Prelude.{Err, ◌+◌, ◌≤◌, length};
ghost use Rattle.ascii.specs.Laying.{Laid};
ghost use Rattle.hints.specs.Hints.{hint_room};
ghost use Rattle.refusals.specs.Texts.{spot_words, row_refused, row_end, told_words, misread_line, room_line, spot_room, told_room, unmade_words, refused_file, unmade_line, misfit_line, number_room, unmade_room, end_room, refused_room, text_line_room};

use crate::entries::{COLON, put_named};
use crate::line::put_place;
use ascii::{NEWLINE, put_byte, put_bytes};
use contents::{Counts, entry_at};
use hints::{Hint, put_hint};
use session::{Refusal, refusal_row};
use text::TextError;
use tokens::Place;
use wording::{Row, put_counted, put_row_words, row_number};

// The text's name, line and column from the front of `out`.
fn put_spot(out: &mut [u8], name: &[u8], p: Place) -> usize
    requires { length name.now + spot_room ≤ length out.old }
    ensures { Laid out.old 0 (spot_words name.now p.line p.column) out.new result × (result ≤ length name.now + spot_room) }
{
    let at = put_bytes(out, 0, name);
    let at = put_counted(out, at, b":", p.line);
    put_counted(out, at, b":", p.column)
}

// That it is refused, with the row's number, behind the first `at` bytes.
pub fn put_refused(out: &mut [u8], at: usize, x: Row) -> usize
    requires { at + number_room ≤ length out.old }
    ensures { Laid out.old at (row_refused x) out.new result × (result ≤ at + number_room) }
{
    put_counted(out, at, b": refused ", row_number(x))
}

// The row's words, the hint, and the line's end.
pub fn put_end(out: &mut [u8], at: usize, x: Row, h: Option<Hint>) -> usize
    requires { at + end_room + hint_room ≤ length out.old }
    ensures { Laid out.old at (row_end x h) out.new result }
{
    let at = put_bytes(out, at, b": ");
    let at = put_row_words(out, at, x);
    let at = put_hint(out, at, h);
    put_byte(out, at, NEWLINE)
}

// That a text is refused, and why, behind the first `at` bytes.
fn put_told(out: &mut [u8], at: usize, e: TextError, h: Option<Hint>) -> usize
    requires { at + told_room ≤ length out.old }
    ensures { Laid out.old at (told_words (Err e) h) out.new result }
{
    let x = Row::Text(Err(e));
    let at = put_refused(out, at, x);
    put_end(out, at, x, h)
}

// The line of a text's first byte that can't be, from the front of `out`. Answers its length.
pub fn misread_line(out: &mut [u8], name: &[u8], place: Place, h: Option<Hint>) -> usize
    requires { text_line_room + length name.now ≤ length out.old }
    ensures { Laid out.old 0 (misread_line name.now place.line place.column h) out.new result }
{
    let at = put_spot(out, name, place);
    let Place { line, column } = place;
    put_told(out, at, TextError::BadText { line, column }, h)
}

// The line of a room too short, from the front of `out`. Answers its length.
pub fn room_line(out: &mut [u8], name: &[u8]) -> usize
    requires { text_line_room + length name.now ≤ length out.old }
    ensures { Laid out.old 0 (room_line name.now) out.new result }
{
    let at = put_bytes(out, 0, name);
    put_told(out, at, TextError::NoRoom, None)
}

// The place, in a file of these counts that would be made, its entry there, and an item's field.
fn put_unmade(out: &mut [u8], at: usize, c: Counts, x: Refusal) -> usize
    requires { at + unmade_room ≤ length out.old }
    ensures { Laid out.old at (unmade_words c x) out.new result × (result ≤ at + unmade_room) }
{
    let at = put_place(out, at, x);
    let at = put_bytes(out, at, b" of the file it would make");
    put_named(out, at, COLON, entry_at(c, refusal_row(x).place), x)
}

// What is told of a file that would be refused, behind the first `at` bytes: `c` has the counts of what it says.
fn put_refused_file(out: &mut [u8], at: usize, c: Counts, x: Refusal, h: Option<Hint>) -> usize
    requires { at + refused_room ≤ length out.old }
    ensures { Laid out.old at (refused_file c x h) out.new result }
{
    let at = put_refused(out, at, Row::Call(x));
    let at = put_unmade(out, at, c, x);
    put_end(out, at, Row::Call(x), h)
}

// The line of what has no line and column and whose file would be refused, from the front of `out`. Answers its length.
pub fn unmade_line(out: &mut [u8], name: &[u8], c: Counts, x: Refusal) -> usize
    requires { text_line_room + length name.now ≤ length out.old }
    ensures { Laid out.old 0 (unmade_line name.now c x) out.new result }
{
    let at = put_bytes(out, 0, name);
    put_refused_file(out, at, c, x, None)
}

// The line of a text whose file would be refused for what stands at this line and column, from the front of `out`. Answers its length.
pub fn misfit_line(
    out: &mut [u8],
    name: &[u8],
    p: Place,
    c: Counts,
    x: Refusal,
    h: Option<Hint>,
) -> usize
    requires { text_line_room + length name.now ≤ length out.old }
    ensures { Laid out.old 0 (misfit_line name.now p c x h) out.new result }
{
    let at = put_spot(out, name, p);
    put_refused_file(out, at, c, x, h)
}
