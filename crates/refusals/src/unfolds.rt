// The line that tells people of an extended score that can't be unfolded.
// A place beside the bytes, as in ascii's laying, and each asks for room by a clause: a type around the lent bytes would be built at each call, and taken apart again in it.
ghost use Rattle.std.specs.Prelude.{◌≡◌, ◌+◌, ◌≤◌, length};
ghost use Rattle.ascii.specs.Laying.{Laid};
ghost use Rattle.refusals.specs.Entries.{entry_room};
ghost use Rattle.refusals.specs.Line.{place_room};
ghost use Rattle.refusals.specs.Texts.{text_line_room};
ghost use Rattle.refusals.specs.Unfolds.{folded_entry, folded_place, folded_where, folded_line};

use crate::entries::{COMMA, put_entry};
use crate::texts::{put_end, put_refused};
use ascii::put_bytes;
use contents::Entry;
use extended::extent_of;
use extended::layout::{EXTENDED_CONTENTS, FOLDED_SIZE, items_start};
use unfolding::UnfoldError;
use wording::{Row, put_counted};

// The item that holds this byte of an extended score, whatever its counts are.
pub fn folded_entry(extended: &[u8], place: usize) -> Entry
    ensures { result ≡ folded_entry extended.now place }
{
    if extended.len() < EXTENDED_CONTENTS {
        return Entry::Nowhere;
    }
    let c = extent_of(extended);
    let start = items_start(c);
    if place < start {
        return Entry::Nowhere;
    }
    Entry::Item((place - start) / FOLDED_SIZE)
}

// The place, where it is one, and its item.
fn put_folded_place(out: &mut [u8], at: usize, extended: &[u8], place: usize) -> usize
    requires { at + place_room + entry_room ≤ length out.old }
    ensures { Laid out.old at (folded_place extended.now place) out.new result × (result ≤ at + place_room + entry_room) }
{
    if place == 0 {
        return at;
    }
    let at = put_counted(out, at, b" at byte ", place);
    put_entry(out, at, COMMA, folded_entry(extended, place))
}

#[tactic(auto, unfolding(crate::specs::Unfolds::folded_where))]
fn put_folded_where(
    out: &mut [u8],
    at: usize,
    extended: &[u8],
    u: Result<usize, UnfoldError>,
) -> usize
    requires { at + place_room + entry_room ≤ length out.old }
    ensures { Laid out.old at (folded_where extended.now u) out.new result × (result ≤ at + place_room + entry_room) }
{
    match u {
        Ok(_) => at,
        Err(UnfoldError::NoRoom) => at,
        Err(UnfoldError::BadExtended { place }) => put_folded_place(out, at, extended, place),
        Err(UnfoldError::OverLimit) => at,
        Err(UnfoldError::BadFile { fault: _ }) => at,
    }
}

// The line of an extended score that is refused for itself, from the front of `out`. Answers its length.
pub fn folded_line(
    out: &mut [u8],
    name: &[u8],
    extended: &[u8],
    u: Result<usize, UnfoldError>,
) -> usize
    requires { text_line_room + length name.now ≤ length out.old }
    ensures { Laid out.old 0 (folded_line name.now extended.now u) out.new result }
{
    let at = put_bytes(out, 0, name);
    let at = put_refused(out, at, Row::Unfold(u));
    let at = put_folded_where(out, at, extended, u);
    put_end(out, at, Row::Unfold(u), None)
}
