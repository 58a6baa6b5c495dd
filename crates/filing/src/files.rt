// A whole file: "a table of contents first, then the bodies without gaps".
ghost use Rattle.std.specs.Prelude.{◌≡◌, ◌++◌, ◌+◌, ◌≤◌, ◌<◌, length};
ghost use Rattle.ascii.specs.Laying.{Laid};
ghost use Rattle.contents.specs.Limits.{contents_size};
ghost use Rattle.contents.specs.Contents.{events_at, items_at, messages_at, text_at};
ghost use Rattle.contents.specs.Inner.{Counted};
ghost use Rattle.score.specs.Encode.{contents_bytes};
ghost use Rattle.filing.specs.Pieces.{body_of, filed, Filable};

use crate::numbers::put32;
use ascii::put_bytes;
use contents::limits::CONTENTS_SIZE;
use contents::{Counts, items_at, messages_at, text_at};

// "offset (u32) and count (u32)" of a body
fn put_body(out: &mut [u8], at: usize, offset: usize, count: usize) -> usize
    requires { (at + 8 ≤ length out.old) × (offset < 4294967296) × (count < 4294967296) }
    ensures { Laid out.old at (body_of offset count) out.new result × (result ≡ at + 8) }
{
    let next = put32(out, at, offset);
    put32(out, next, count)
}

// Of the events and the items.
fn put_tables(out: &mut [u8], c: Counts) -> usize
    requires { (contents_size ≤ length out.old) × Counted c }
    ensures { Laid out.old 0 (body_of events_at c.events ++ body_of (items_at c) c.items) out.new result × (result ≡ 16) }
{
    let items = items_at(c);
    let next = put_body(out, 0, CONTENTS_SIZE, c.events);
    put_body(out, next, items, c.items)
}

// Of the messages and the text.
fn put_lists(out: &mut [u8], at: usize, c: Counts) -> usize
    requires { (at + 16 ≤ length out.old) × Counted c }
    ensures { Laid out.old at (body_of (messages_at c) c.messages ++ body_of (text_at c) c.text) out.new result × (result ≡ at + 16) }
{
    let messages = messages_at(c);
    let text = text_at(c);
    let next = put_body(out, at, messages, c.messages);
    put_body(out, next, text, c.text)
}

// The contents of a file with these counts.
fn put_contents(out: &mut [u8], c: Counts) -> usize
    requires { (contents_size ≤ length out.old) × Counted c }
    ensures { Laid out.old 0 (contents_bytes c) out.new result × (result ≡ contents_size) }
{
    let next = put_tables(out, c);
    put_lists(out, next, c)
}

// The bodies one behind the other, behind the first `at` bytes, which stay.
fn put_bodies(
    out: &mut [u8],
    at: usize,
    durations: &[u8],
    items: &[u8],
    entries: &[u8],
    text: &[u8],
) -> usize
    requires { at + length durations.now + length items.now + length entries.now + length text.now ≤ length out.old }
    ensures { Laid out.old at (durations.now ++ (items.now ++ (entries.now ++ text.now))) out.new result }
{
    let at = put_bytes(out, at, durations);
    let at = put_bytes(out, at, items);
    let at = put_bytes(out, at, entries);
    put_bytes(out, at, text)
}

// The file with these counts and bodies, from the front of `out`. Answers its length.
pub fn put_file(
    out: &mut [u8],
    c: Counts,
    durations: &[u8],
    items: &[u8],
    entries: &[u8],
    text: &[u8],
) -> usize
    requires { Filable c durations.now items.now entries.now text.now out.old }
    ensures { Laid out.old 0 (filed c durations.now items.now entries.now text.now) out.new result }
{
    let at = put_contents(out, c);
    put_bodies(out, at, durations, items, entries, text)
}
