// The whole text: the message list, then the events with their top items.
// A place beside the bytes, as in ascii's laying.
ghost use Rattle.std.specs.Prelude.{◌≡◌, [], ◌+◌, ◌≤◌, length, drop, get_or};
ghost use Rattle.ascii.specs.Laying.{Laid};
ghost use Rattle.contents.specs.Limits.{last_part};
ghost use Rattle.items.specs.Items.{within_of};
ghost use Rattle.score.specs.Piece.{decode};
ghost use Rattle.text.specs.Written.{written};
ghost use Rattle.writer.specs.Phrases.{message_line};
ghost use Rattle.writer.specs.Layouts.{messages_text, names, change_text, top_text, page_text, Topped};

use crate::nesting::put_items;
use crate::phrases::{put_event, put_message, put_part};
use ascii::put_bytes;
use page::Item;
use score::{
    AcceptedFile, accepted_label, duration, event_count, item_count, message_count, read_item,
};

// The line of message `k`.
fn put_entry(file: AcceptedFile<'_>, k: usize, out: &mut [u8], at: usize) -> usize
    requires { at + length (message_line k (get_or (decode file.bytes.now).labels k [])) ≤ length out.old }
    ensures { Laid out.old at (message_line k (get_or (decode file.entry.bytes.now).labels k [])) out.new result }
{
    let label = accepted_label(file.bytes, k as u64);
    put_message(out, at, k as u64, label)
}

// The message list.
fn put_messages(file: AcceptedFile<'_>, out: &mut [u8], at: usize) -> usize
    requires { at + length (messages_text (decode file.bytes.now) 0) ≤ length out.old }
    ensures { Laid out.old at (messages_text (decode file.entry.bytes.now) 0) out.new result }
{
    let mut next = at;
    for k in 0..message_count(file.bytes) {
        next = put_entry(file, k, out, next);
    }
    next
}

// Whether the item at the place `i` is there and names the event `e`.
fn stands(file: AcceptedFile<'_>, i: usize, e: usize) -> bool
    ensures { result ≡ names e (drop i (decode file.entry.bytes.now).items) }
{
    let items = item_count(file.bytes);
    if items <= i {
        return false;
    }
    let item = read_item(file.bytes, i);
    item.event == e
}

// "`part P` where an event's first top item stands or the part changes"
fn put_change(out: &mut [u8], at: usize, standing: usize, part: usize) -> usize
    requires { (part ≤ last_part) × (at + length (change_text standing part) ≤ length out.old) }
    ensures { Laid out.old at (change_text standing part) out.new result }
{
    if standing == part + 1 {
        return at;
    }
    put_part(out, at, part as u64)
}

// How many items stand within this one.
// Its kind is a number, as page's `Item` holds it.
fn within(item: Item) -> usize
    ensures { result ≡ within_of item }
{
    if item.kind == 0 {
        return 0;
    }
    item.last
}

// The top item at the place `i`, with its part where that changes and the items within it.
fn put_top(
    file: AcceptedFile<'_>,
    i: usize,
    part: usize,
    inner: usize,
    standing: usize,
    out: &mut [u8],
    at: usize,
) -> usize
    requires { Topped file.bytes.now i part inner standing out.old at }
    ensures { Laid out.old at (top_text (decode file.entry.bytes.now) standing i part inner) out.new result }
{
    let parted = put_change(out, at, standing, part);
    put_items(file, i, 1 + inner, 0, out, parted)
}

// The events and their top items. `standing` is one more than the part of the top item before, 0 at an event's first.
// A number, and no Option, as the definition `page_lines` of text counts it.
fn put_page(file: AcceptedFile<'_>, out: &mut [u8], at: usize) -> usize
    requires { at + length (page_text (decode file.bytes.now) 0 0 0) ≤ length out.old }
    ensures { Laid out.old at (page_text (decode file.entry.bytes.now) 0 0 0) out.new result }
{
    let events = event_count(file.bytes);
    let mut e = 0;
    let mut standing = 0;
    let mut i = 0;
    let mut next = at;
    // A `loop`: a step takes the top item that comes next, with all within it, or else the next event, as `page_lines` does. A `for` over the events would take the
    // items in two places, since `page_lines` looks for some before the first event, too.
    loop {
        if stands(file, i, e) {
            let item = read_item(file.bytes, i);
            let inner = within(item);
            let part = item.part;
            next = put_top(file, i, part, inner, standing, out, next);
            i = i + 1 + inner;
            standing = part + 1;
            continue;
        }
        if events <= e {
            return next;
        }
        let d = duration(file.bytes, e);
        e += 1;
        next = put_event(out, next, d.0, e as u64);
        standing = 0;
    }
}

// All of it.
pub fn put_text(file: AcceptedFile<'_>, out: &mut [u8]) -> usize
    requires { length (written (decode file.bytes.now)) ≤ length out.old }
    ensures { Laid out.old 0 (written (decode file.entry.bytes.now)) out.new result }
{
    let headed = put_bytes(out, 0, b"messages\n");
    let listed = put_messages(file, out, headed);
    put_page(file, out, listed)
}
