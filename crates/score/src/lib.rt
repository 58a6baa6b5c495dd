// The score file: whether one is right and where the first fault is, what it says, and the labels of its messages.
#![tactic(auto)]

ghost use Rattle.std.specs.Prelude.{◌≡◌, ◌+◌, ◌≤◌, ◌<◌, length};
ghost use Rattle.contents.specs.Limits.{most_events, most_items, most_messages};
ghost use Rattle.contents.specs.Replies.{verdict_of};
ghost use Rattle.contents.specs.Contents.{counts_of};
ghost use Rattle.score.specs.File.{checked, Accepted};
ghost use Rattle.score.specs.LookUp.{label_reply, label_span, Part};
ghost use Rattle.score.specs.Readers.{EventIn, ItemIn, EventRead, ItemRead};

use bodies::check_bodies;
use contents::bytes::read32;
use contents::limits::{CONTENTS_SIZE, EVENT_SIZE, ITEM_SIZE};
use contents::{Fault, check_counts, check_layout, items_at, read_counts};
use items::item_at;
use look_up::{Span, accepted_span, label_span};
use page::Item;
use units::Grains;

mod accepted_file;
mod bodies;
mod events;
mod look_up;

pub use accepted_file::AcceptedFile;

// The first fault of a file.
pub fn check_file(file: &[u8]) -> Result<(), Fault>
    ensures { result ≡ verdict_of (checked file.now) }
{
    if file.len() < CONTENTS_SIZE {
        return Err(Fault::FileShort);
    }
    let c = read_counts(file);
    check_counts(c)?;
    check_layout(file, c)?;
    check_bodies(file, c)
}

// The text look-up's reply. The number is taken whole, however large.
pub fn label_reply(file: &[u8], n: u64) -> Result<(), Fault>
    ensures { result ≡ verdict_of (label_reply file.now n) }
{
    check_file(file)?;
    let c = read_counts(file);
    if c.messages as u64 <= n {
        return Err(Fault::NoMessage);
    }
    Ok(())
}

// The bytes of a span, in the caller's file.
fn spanned(file: &[u8], s: Span) -> &[u8]
    requires { s.start + s.size ≤ length file.now }
    ensures { Part file.entry result s }
{
    let end = s.start + s.size;
    &file[s.start..end]
}

// The text look-up's part: the label's own bytes in the caller's file, never a copy.
pub fn label(file: &[u8], n: u64) -> &[u8]
    ensures { Part file.entry result (label_span file.now n) }
{
    spanned(file, label_span(file, n))
}

// The same part of a file that is known to be accepted, without a check of it.
pub fn accepted_label(file: &[u8], n: u64) -> &[u8]
    requires { Accepted file.now }
    ensures { Part file.entry result (label_span file.now n) }
{
    spanned(file, accepted_span(file, n))
}

// How many events, items and messages an accepted file has. By a clause and not by a type: docs/PROOFS.md names these functions and `accepted_label`, so they ask of a caller what they asked.
pub fn event_count(file: &[u8]) -> usize
    requires { Accepted file.now }
    ensures { (result ≡ (counts_of file.now).events) × (1 ≤ result) × (result ≤ most_events) }
{
    let c = read_counts(file);
    c.events
}

pub fn item_count(file: &[u8]) -> usize
    requires { Accepted file.now }
    ensures { (result ≡ (counts_of file.now).items) × (result ≤ most_items) }
{
    let c = read_counts(file);
    c.items
}

pub fn message_count(file: &[u8]) -> usize
    requires { Accepted file.now }
    ensures { (result ≡ (counts_of file.now).messages) × (result ≤ most_messages) }
{
    let c = read_counts(file);
    c.messages
}

// The duration of event k + 1.
pub fn duration(file: &[u8], k: usize) -> Grains
    requires { EventIn file.now k }
    ensures { EventRead file.now k result }
{
    Grains(read32(file, CONTENTS_SIZE + EVENT_SIZE * k) as u64)
}

// The item at the page place `p`.
pub fn read_item(file: &[u8], p: usize) -> Item
    requires { ItemIn file.now p }
    ensures { ItemRead file.now p result }
{
    let c = read_counts(file);
    item_at(file, items_at(c) + ITEM_SIZE * p)
}
