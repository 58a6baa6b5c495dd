// The items of an accepted file: each item's line, then those within it and their closing brace, then those after it. Only a group's body recurses, so the stack is
// as deep as groups nest.
// File, depth, bytes and place are lent apart, as in ascii's laying: each call goes on with another depth and another place.
ghost use Rattle.std.specs.Prelude.{[], ◌+◌, ◌≤◌, length, get_or};
ghost use Rattle.ascii.specs.Laying.{Laid};
ghost use Rattle.contents.specs.Limits.{longest};
ghost use Rattle.score.specs.Piece.{decode};
ghost use Rattle.writer.specs.Phrases.{send_line};
ghost use Rattle.writer.specs.Layouts.{Layable, items_text};

use crate::phrases::{put_close, put_group, put_send};
use score::{AcceptedFile, accepted_label, read_item};

// An action's line, with its label's own bytes.
fn put_action(
    file: AcceptedFile<'_>,
    delay: u64,
    number: u64,
    depth: usize,
    out: &mut [u8],
    at: usize,
) -> usize
    requires { (delay ≤ longest) × (at + length (send_line depth delay number (get_or (decode file.bytes.now).labels number [])) ≤ length out.old) }
    ensures { Laid out.old at (send_line depth delay number (get_or (decode file.entry.bytes.now).labels number [])) out.new result }
{
    let label = accepted_label(file.bytes, number);
    put_send(out, at, depth, delay, number, label)
}

// The `count` items from the page place `from` on, and all within them.
// An item's kind is a number, as page's `Item` holds it.
pub fn put_items(
    file: AcceptedFile<'_>,
    from: usize,
    count: usize,
    depth: usize,
    out: &mut [u8],
    at: usize,
) -> usize
    requires { Layable file.bytes.now from count depth out.old at }
    ensures { Laid out.old at (items_text (decode file.entry.bytes.now) from count depth) out.new result }
{
    let mut i = from;
    let mut left = count;
    let mut next = at;
    // A `while`: a step passes an item with all that stand within it, and how many they are is what is read.
    while 0 < left {
        let item = read_item(file.bytes, i);
        let last = item.last;
        if item.kind == 0 {
            next = put_action(file, item.delay.0, last as u64, depth, out, next);
            i += 1;
            left -= 1;
            continue;
        }
        let body = put_group(out, next, depth, item);
        let brace = put_items(file, i + 1, last, depth + 1, out, body);
        next = put_close(out, brace, depth);
        i = i + 1 + last;
        left = left - 1 - last;
    }
    next
}
