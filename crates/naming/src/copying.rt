// The score's own messages, copied to the fronts of lent bytes, and whether each of them lies within the text.
// The list stands in lent rooms that it doesn't fill and nothing allocates, so how many messages and bytes of text there are stands beside them.
ghost use Rattle.std.specs.Prelude.{◌≡◌, ◌+◌, ◌*◌, ◌≤◌, length};
ghost use Rattle.contents.specs.Limits.{message_size, most_messages, most_text};
ghost use Rattle.extended.specs.Inner.{Foldable};
ghost use Rattle.unfolding.specs.Messages.{entries_from};
ghost use Rattle.unfolding.specs.Extended.{extended_of};
ghost use Rattle.naming.specs.Inner.{all_within, ListRoom, Copied, messages_in, Standing};

use ascii::put_bytes;
use contents::bytes::read16;
use contents::limits::MESSAGE_SIZE;
use extended::Extent;
use extended::layout::{messages_start, points_start, text_start};
use filing::put_entry;

// The `count` entries from the byte `at` of the file on.
fn copy_entries(file: &[u8], at: usize, count: usize, entries: &mut [u8])
    requires { (at + message_size * count ≤ length file.now) × (message_size * count ≤ length entries.old) }
    ensures { Copied file.now at count entries.new }
{
    for i in 0..count {
        let place = MESSAGE_SIZE * i;
        let start = read16(file, at + place);
        let size = read16(file, at + place + 2);
        put_entry(entries, place, start, size);
    }
}

// The score's entries and text.
pub fn copy_list(file: &[u8], c: Extent, entries: &mut [u8], labels: &mut [u8])
    requires { Foldable file.now c × (c.messages ≤ most_messages) × (c.text ≤ most_text) × ListRoom entries.old labels.old }
    ensures { (messages_in entries.new labels.new c.messages c.text ≡ (extended_of file.now).messages) × Standing entries.new labels.new c.messages c.text }
{
    let at = messages_start(c);
    let start = text_start(c);
    let end = points_start(c);
    copy_entries(file, at, c.messages, entries);
    put_bytes(labels, 0, &file[start..end]);
}

// Whether each of the first `n` messages lies within so many bytes of text.
pub fn all_within(entries: &[u8], n: usize, text: usize) -> bool
    requires { message_size * n ≤ length entries.now }
    ensures { result ≡ all_within text (entries_from entries.now 0 n) }
{
    for i in 0..n {
        let place = MESSAGE_SIZE * i;
        let start = read16(entries, place);
        let size = read16(entries, place + 2);
        if text < start + size {
            return false;
        }
    }
    true
}
