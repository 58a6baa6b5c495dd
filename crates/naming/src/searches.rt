// The first message with just these bytes: "A value's message is the first one of the list, as it then stands, with just those bytes".
// The list stands in lent rooms that it doesn't fill and nothing allocates, so how many messages and bytes of text there are stands beside them.
ghost use Rattle.std.specs.Prelude.{◌≡◌, ◌+◌, ◌*◌, ◌≤◌, ◌<◌, length};
ghost use Rattle.contents.specs.Limits.{message_size};
ghost use Rattle.unfolding.specs.Messages.{is_named, entries_from, number_in};
ghost use Rattle.naming.specs.Inner.{entry_at, Searchable, Finds, KeyFound};

use crate::keys::key_of;
use ascii::same;
use contents::bytes::read16;
use contents::limits::MESSAGE_SIZE;

// Puts the key behind the first `n`, and so meets it in any case.
fn find_key(keys: &mut [u64], n: usize, key: u64) -> usize
    requires { n < length keys.old }
    ensures { KeyFound keys.old n key keys.new result }
{
    keys[n] = key;
    let mut at = 0;
    // By place, since the key that was put there ends the search: `position` would test the end, too, and answer an Option that is never None.
    while keys[at] != key {
        at += 1;
    }
    at
}

// Whether the message whose entry stands at the byte `at` has just this name.
fn is_named(entries: &[u8], at: usize, text: &[u8], name: &[u8]) -> bool
    requires { at + message_size ≤ length entries.now }
    ensures { result ≡ is_named text.now name.now (entry_at entries.now at) }
{
    let start = read16(entries, at);
    let size = read16(entries, at + 2);
    let end = start + size;
    if text.len() < end {
        return false;
    }
    same(name, &text[start..end])
}

// Entry by entry and byte by byte.
fn find_label(entries: &[u8], n: usize, text: &[u8], name: &[u8]) -> usize
    requires { message_size * n ≤ length entries.now }
    ensures { (result ≡ number_in text.now name.now (entries_from entries.now 0 n)) × (result ≤ n) }
{
    for i in 0..n {
        if is_named(entries, MESSAGE_SIZE * i, text, name) {
            return i;
        }
    }
    n
}

// By keys where every message lies within the text, so that each has the key of its label for ever; else by their bytes. The key of a message that joins the
// list stands in its place then.
pub fn find(
    entries: &[u8],
    n: usize,
    text: &[u8],
    inside: bool,
    keys: &mut [u64],
    name: &[u8],
) -> usize
    requires { Searchable entries.now n text.now inside keys.old name.now }
    ensures { Finds entries.now n text.now name.now keys.old keys.new result }
{
    let key = key_of(name);
    let number = find_key(keys, n, key);
    if inside {
        return number;
    }
    find_label(entries, n, text, name)
}
