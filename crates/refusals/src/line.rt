// The line that tells people of a refusal.
// A place beside the bytes, as in ascii's laying, and each asks for room by a clause: a type around the lent bytes would be built at each call, and taken apart again in it.
ghost use Rattle.std.specs.Prelude.{◌+◌, ◌≤◌, length};
ghost use Rattle.ascii.specs.Laying.{Laid};
ghost use Rattle.refusals.specs.Entries.{named_room};
ghost use Rattle.refusals.specs.Line.{place_words, place_room, where_words, refusal_line, refusal_room};

use crate::entries::{COMMA, entry_of, put_named};
use ascii::{NEWLINE, put_byte, put_bytes};
use session::{Refusal, refusal_row};
use wording::{placed, put_counted, put_figure, put_words};

// The refusal's place, where it has one.
pub fn put_place(out: &mut [u8], at: usize, x: Refusal) -> usize
    requires { at + place_room ≤ length out.old }
    ensures { Laid out.old at (place_words x) out.new result × (result ≤ at + place_room) }
{
    if placed(x) {
        return put_counted(out, at, b" at byte ", refusal_row(x).place);
    }
    at
}

// The place, the entry of `file` that it lies in, and an item's field.
fn put_where(out: &mut [u8], at: usize, file: &[u8], x: Refusal) -> usize
    requires { at + place_room + named_room ≤ length out.old }
    ensures { Laid out.old at (where_words file.now x) out.new result × (result ≤ at + place_room + named_room) }
{
    let at = put_place(out, at, x);
    put_named(out, at, COMMA, entry_of(file, x), x)
}

// The line of a refusal from the front of `out`: what is refused, the number, the place with its entry in `file`, and the words. Answers its length.
pub fn refusal_line(out: &mut [u8], name: &[u8], file: &[u8], x: Refusal) -> usize
    requires { refusal_room + length name.now ≤ length out.old }
    ensures { Laid out.old 0 (refusal_line name.now file.now x) out.new result × (result ≤ refusal_room + length name.now) }
{
    let row = refusal_row(x);
    let named = put_bytes(out, 0, name);
    let at = put_bytes(out, named, b": refused ");
    let at = put_figure(out, at, row.number);
    let at = put_where(out, at, file, x);
    let at = put_bytes(out, at, b": ");
    let at = put_words(out, at, x);
    put_byte(out, at, NEWLINE)
}
