// A value's place in the list: its message's number there, or the one that it gets at the end.
// The list stands in lent rooms that it doesn't fill and nothing allocates, so how many messages and bytes of text there are stands beside them.
ghost use Rattle.std.specs.Prelude.{◌<◌, ◌≤◌, length};
ghost use Rattle.values.specs.Integers.{whole_range};
ghost use Rattle.values.specs.Inner.{value_of, most_digits};
ghost use Rattle.naming.specs.Inner.{messages_in, Standing, Keyed, Joins, Placed};

use crate::searches::find;
use ascii::put_bytes;
use contents::limits::{MESSAGE_SIZE, MOST_MESSAGES, MOST_TEXT};
use filing::put_entry;
use values::put_value;

// A message's number, and how many messages and bytes of text there then are.
#[derive(Clone, Copy)]
pub struct Place {
    pub number: usize,
    pub messages: usize,
    pub text: usize,
}

const DIGIT_ROOM: usize = 24;

// "else it is added at the end, in page order, its label at the text's end": none where it has no room.
fn join(entries: &mut [u8], n: usize, labels: &mut [u8], text: usize, name: &[u8]) -> Option<Place>
    requires { Standing entries.old labels.old n text × (length name.now ≤ most_digits) }
    ensures { Joins (messages_in entries.old labels.old n text) name.now entries.new labels.new n result }
{
    let size = name.len();
    let end = text + size;
    if MOST_MESSAGES <= n {
        return None;
    }
    if MOST_TEXT < end {
        return None;
    }
    put_entry(entries, MESSAGE_SIZE * n, text, size);
    put_bytes(labels, text, name);
    Some(Place {
        number: n,
        messages: n + 1,
        text: end,
    })
}

// Of the first `n` messages and `text` bytes of text.
pub fn place_value(
    v: u64,
    entries: &mut [u8],
    n: usize,
    labels: &mut [u8],
    text: usize,
    inside: bool,
    keys: &mut [u64],
) -> Option<Place>
    requires { (v < whole_range) × Standing entries.old labels.old n text × Keyed inside entries.old labels.old n text keys.old }
    ensures { Placed (messages_in entries.old labels.old n text) (value_of v) entries.new labels.new inside keys.new result }
{
    let mut digits: [u8; DIGIT_ROOM] = [0; DIGIT_ROOM];
    let size = put_value(&mut digits, 0, v);
    let name = &digits[..size];
    let number = find(entries, n, &labels[..text], inside, keys, name);
    if number < n {
        return Some(Place {
            number,
            messages: n,
            text,
        });
    }
    join(entries, n, labels, text, name)
}
