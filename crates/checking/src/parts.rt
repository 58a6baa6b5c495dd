// The parts of an accepted score, laid in lent bytes.
// A place beside the bytes, as in ascii's laying, and each asks for room by a clause: a type around the lent bytes would be built at each call, and taken apart again in it.
// A mark is a byte, and no `bool`, as the definition `marked` sets it.
ghost use Rattle.std.specs.Prelude.{◌+◌, ◌*◌, ◌≤◌, length};
ghost use Rattle.ascii.specs.Decimals.{most_places};
ghost use Rattle.ascii.specs.Laying.{Laid};
ghost use Rattle.contents.specs.Limits.{last_part};
ghost use Rattle.score.specs.Piece.{decode};
ghost use Rattle.checking.specs.Tallies.{parts_in};
ghost use Rattle.checking.specs.Checked.{parts_told};
ghost use Rattle.checking.specs.Inner.{part_words, marks_told, part_count, part_room, parts_room};

use crate::tallies::{PARTS, mark_parts};
use ascii::{SPACE, put_byte, put_bytes, put_number};
use score::AcceptedFile;

// One part behind the first `at` bytes, where it has a mark.
fn put_part(out: &mut [u8], at: usize, part: usize, mark: u8) -> usize
    requires { (part ≤ last_part) × (at + 1 + most_places ≤ length out.old) }
    ensures { Laid out.old at (part_words mark part) out.new result × (result ≤ at + part_room) }
{
    if mark == 0 {
        return at;
    }
    let next = put_byte(out, at, SPACE);
    put_number(out, next, part as u64)
}

// All that have a mark.
fn put_marked(out: &mut [u8], at: usize, marks: &[u8; PARTS]) -> usize
    requires { at + parts_room ≤ length out.old }
    ensures { Laid out.old at (marks_told marks.now part_count) out.new result × (result ≤ at + part_room * part_count) }
{
    let mut next = at;
    for (k, &m) in marks.iter().enumerate() {
        next = put_part(out, next, k, m);
    }
    next
}

// The parts that the score's items have, or that there are none.
pub fn put_parts(out: &mut [u8], at: usize, file: AcceptedFile<'_>) -> usize
    requires { at + parts_room ≤ length out.old }
    ensures { Laid out.old at (parts_told (parts_in (decode file.entry.bytes.now).items)) out.new result × (result ≤ at + part_room * part_count) }
{
    let mut marks = [0u8; PARTS];
    mark_parts(file, &mut marks);
    let next = put_marked(out, at, &marks);
    if next == at {
        return put_bytes(out, at, b" none");
    }
    next
}
