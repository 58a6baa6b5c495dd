// A key for each message, so that labels are compared as one number: two values' digits have one key only where they are the same.
// The list stands in lent rooms that it doesn't fill and nothing allocates, so how many messages and bytes of text there are stands beside them.
ghost use Rattle.std.specs.Prelude.{◌≡◌, ◌+◌, ◌*◌, ◌<◌, ◌≤◌, length, take};
ghost use Rattle.contents.specs.Limits.{message_size, most_messages};
ghost use Rattle.unfolding.specs.Messages.{entries_from};
ghost use Rattle.naming.specs.Inner.{symbol, most_symbol, key_of, entry_at, key_in, keys_of, Standing, Keyed};

use crate::copying::all_within;
use contents::bytes::read16;
use contents::limits::MESSAGE_SIZE;

// Of a value's digits and minus sign.
const MOST_DIGITS: usize = 11;

const BEFORE_ZERO: u64 = 47;

const MINUS_SYMBOL: u64 = 11;

const SYMBOLS: u64 = 16;

// 1 to 10 for a digit, 11 for a minus sign, 0 for a byte that is in no value's digits.
fn symbol(b: u8) -> u64
    ensures { (result ≡ symbol b) × (result ≤ most_symbol) }
{
    if b == b'-' {
        return MINUS_SYMBOL;
    }
    if b < b'0' {
        return 0;
    }
    if b'9' < b {
        return 0;
    }
    u64::from(b) - BEFORE_ZERO
}

// The label's key: its symbols from the last to the first. 0 for a label that is no value's.
pub fn key_of(label: &[u8]) -> u64
    ensures { result ≡ key_of label.now }
{
    if MOST_DIGITS < label.len() {
        return 0;
    }
    let mut key: u64 = 0;
    for i in (0..label.len()).rev() {
        let s = symbol(label[i]);
        if s == 0 {
            return 0;
        }
        key = s + SYMBOLS * key;
    }
    key
}

// The key of the message whose entry stands at the byte `at`: 0 where it doesn't lie within the text.
fn key_at(entries: &[u8], at: usize, text: &[u8]) -> u64
    requires { at + message_size ≤ length entries.now }
    ensures { result ≡ key_in text.now (entry_at entries.now at) }
{
    let start = read16(entries, at);
    let size = read16(entries, at + 2);
    let end = start + size;
    if text.len() < end {
        return 0;
    }
    key_of(&text[start..end])
}

// The keys of the first `n` messages.
fn fill_keys(entries: &[u8], n: usize, text: &[u8], keys: &mut [u64])
    requires { (n ≤ length keys.old) × (message_size * n ≤ length entries.now) }
    ensures { take n keys.new ≡ keys_of text.now (entries_from entries.now 0 n) }
{
    for i in 0..n {
        keys[i] = key_at(entries, MESSAGE_SIZE * i, text);
    }
}

// The keys of the list that stands there. Answers whether every message lies within the text.
pub fn key_list(entries: &[u8], n: usize, labels: &[u8], text: usize, keys: &mut [u64]) -> bool
    requires { Standing entries.now labels.now n text × (most_messages < length keys.old) }
    ensures { Keyed result entries.now labels.now n text keys.new }
{
    fill_keys(entries, n, &labels[..text], keys);
    all_within(entries, n, text)
}
