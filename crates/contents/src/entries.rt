// Which entry of a score file a byte lies in.
ghost use Rattle.std.specs.Prelude.{◌≡◌};
ghost use Rattle.contents.specs.Entries.{entry_at};

use crate::Counts;
use crate::limits::{CONTENTS_SIZE, EVENT_SIZE, ITEM_SIZE, MESSAGE_SIZE};

// A field of the table of contents, an event from 1, an item by its page place, or a message from 0. No Option beside it: whoever tells a place tells all five in one `match`.
#[derive(Clone, Copy)]
pub enum Entry {
    Nowhere,
    Contents(usize),
    Event(usize),
    Item(usize),
    Message(usize),
}

// An offset or a count is a u32.
const FIELD_SIZE: usize = 4;

// The entry that holds the byte `at` in a file of these counts, whatever they are: what is behind a table is compared by division, so that nothing wraps.
pub fn entry_at(c: Counts, at: usize) -> Entry
    ensures { result ≡ entry_at c at }
{
    if at < CONTENTS_SIZE {
        return Entry::Contents(at / FIELD_SIZE);
    }
    let past = at - CONTENTS_SIZE;
    if past / EVENT_SIZE < c.events {
        return Entry::Event(1 + past / EVENT_SIZE);
    }
    let past = past - EVENT_SIZE * c.events;
    if past / ITEM_SIZE < c.items {
        return Entry::Item(past / ITEM_SIZE);
    }
    let past = past - ITEM_SIZE * c.items;
    if past / MESSAGE_SIZE < c.messages {
        return Entry::Message(past / MESSAGE_SIZE);
    }
    Entry::Nowhere
}
