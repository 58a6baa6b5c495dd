// What every part of a file's check stands on: what can be wrong with a file, and the table of contents, with counts within their limits and bodies without gaps.
#![tactic(auto)]

ghost use Rattle.std.specs.Prelude.{◌≡◌, ◌≤◌, length};
ghost use Rattle.contents.specs.Limits.{contents_size};
ghost use Rattle.contents.specs.Replies.{verdict_of};
ghost use Rattle.contents.specs.Contents.{offsets_of, counts_of, items_at, messages_at, text_at, size_of, counts_right, offsets_right};
ghost use Rattle.contents.specs.Inner.{Counted};

use bytes::read32;
use limits::{
    CONTENTS_SIZE, EVENT_SIZE, ITEM_SIZE, MESSAGE_SIZE, MOST_EVENTS, MOST_ITEMS, MOST_MESSAGES,
    MOST_TEXT,
};

pub mod bytes;
mod entries;
pub mod limits;
mod replies;

pub use entries::{Entry, entry_at};
pub use replies::{replied, rule_row};

// What can be wrong with a file, and with a message asked of it: one case for each row of the reply table, and one for the rules of an item together.
#[derive(Clone, Copy)]
pub enum Fault {
    // "file under 32 bytes"
    FileShort,
    // "a count outside its limits"
    BadCount(usize),
    // "an offset not as above"
    BadOffset(usize),
    // "offsets right, file length wrong"
    BadLength,
    // "an event's duration"
    BadEvent(usize),
    // An item's rule, with the place of its field.
    BadItem(ItemRule, usize),
    // "a message entry or its label bytes"
    BadMessage(usize),
    // "entries right, text not used up"
    TextLeft,
    // "no such message"
    NoMessage,
}

// Which rule of an item is broken, in the order in which they are checked; the words are two fields.
#[derive(Clone, Copy)]
pub enum ItemRule {
    Kind,
    Synchrony,
    ErrorWord,
    Part,
    Delay,
    Event,
    Nesting,
    Message,
    Actions,
}

// A row of the table of an item's rules: the number, and where the rule's field stands in the item.
#[derive(Clone, Copy)]
pub struct RuleRow {
    pub number: usize,
    pub offset: usize,
}

// The reply table's number and place.
#[derive(Clone, Copy)]
pub struct Reply {
    pub number: usize,
    pub place: usize,
}

// The table of contents: where each body starts, and how many it has. Two types, and a reader for each: with one for both, a count could stand where an offset is asked for.
#[derive(Clone, Copy)]
pub struct Offsets {
    pub events: usize,
    pub items: usize,
    pub messages: usize,
    pub text: usize,
}

#[derive(Clone, Copy)]
pub struct Counts {
    pub events: usize,
    pub items: usize,
    pub messages: usize,
    pub text: usize,
}

pub fn read_offsets(file: &[u8]) -> Offsets
    requires { contents_size ≤ length file.now }
    ensures { result ≡ offsets_of file.now }
{
    Offsets {
        events: read32(file, 0),
        items: read32(file, 8),
        messages: read32(file, 16),
        text: read32(file, 24),
    }
}

pub fn read_counts(file: &[u8]) -> Counts
    requires { contents_size ≤ length file.now }
    ensures { result ≡ counts_of file.now }
{
    Counts {
        events: read32(file, 4),
        items: read32(file, 12),
        messages: read32(file, 20),
        text: read32(file, 28),
    }
}

// Where the items, the messages and the text of right counts start, and where the file ends. `Counted` is a clause and no type: `counts_of` and `counts_right`, which say what a file's counts are, speak of any.
pub fn items_at(c: Counts) -> usize
    requires { Counted c }
    ensures { result ≡ items_at c }
{
    CONTENTS_SIZE + EVENT_SIZE * c.events
}

pub fn messages_at(c: Counts) -> usize
    requires { Counted c }
    ensures { result ≡ messages_at c }
{
    items_at(c) + ITEM_SIZE * c.items
}

pub fn text_at(c: Counts) -> usize
    requires { Counted c }
    ensures { result ≡ text_at c }
{
    messages_at(c) + MESSAGE_SIZE * c.messages
}

pub fn size_of(c: Counts) -> usize
    requires { Counted c }
    ensures { result ≡ size_of c }
{
    text_at(c) + c.text
}

pub fn check_counts(c: Counts) -> Result<(), Fault>
    ensures { result ≡ verdict_of (counts_right c) }
{
    if c.events < 1 {
        return Err(Fault::BadCount(4));
    }
    if MOST_EVENTS < c.events {
        return Err(Fault::BadCount(4));
    }
    if MOST_ITEMS < c.items {
        return Err(Fault::BadCount(12));
    }
    if MOST_MESSAGES < c.messages {
        return Err(Fault::BadCount(20));
    }
    if MOST_TEXT < c.text {
        return Err(Fault::BadCount(28));
    }
    Ok(())
}

pub fn check_offsets(o: Offsets, c: Counts, size: usize) -> Result<(), Fault>
    requires { Counted c }
    ensures { result ≡ verdict_of (offsets_right o c size) }
{
    if o.events != CONTENTS_SIZE {
        return Err(Fault::BadOffset(0));
    }
    if o.items != items_at(c) {
        return Err(Fault::BadOffset(8));
    }
    if o.messages != messages_at(c) {
        return Err(Fault::BadOffset(16));
    }
    if o.text != text_at(c) {
        return Err(Fault::BadOffset(24));
    }
    if size != size_of(c) {
        return Err(Fault::BadLength);
    }
    Ok(())
}

pub fn check_layout(file: &[u8], c: Counts) -> Result<(), Fault>
    requires { (contents_size ≤ length file.now) × Counted c }
    ensures { result ≡ verdict_of (offsets_right (offsets_of file.now) c (length file.now)) }
{
    let size = file.len();
    check_offsets(read_offsets(file), c, size)
}
