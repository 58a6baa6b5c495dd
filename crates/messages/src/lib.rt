// The messages of a file: "Message: 4 bytes, start and length (u16) in the text.", and the label bytes.
#![tactic(auto)]

ghost use Rattle.std.specs.Prelude.{◌≡◌, ◌+◌, ◌≤◌, ◌<◌, length};
ghost use Rattle.std.specs.List.{list_all};
ghost use Rattle.contents.specs.Limits.{message_size};
ghost use Rattle.contents.specs.Bytes.{part};
ghost use Rattle.contents.specs.Replies.{verdict_of};
ghost use Rattle.contents.specs.Contents.{messages_at};
ghost use Rattle.contents.specs.Inner.{Sized};
ghost use Rattle.messages.specs.Messages.{label_byte, readable, message_right, messages_right};

use contents::bytes::read16;
use contents::limits::{LONGEST_LABEL, MESSAGE_SIZE};
use contents::{Counts, Fault, messages_at, text_at};

// "Label bytes are 32 to 255 but not 127", by range.
fn label_byte(b: u8) -> bool
    ensures { result ≡ label_byte b }
{
    match b {
        0..=31 => false,
        32..=126 => true,
        127 => false,
        128..=255 => true,
    }
}

// Whether all of these are label bytes.
fn label_bytes(bytes: &[u8]) -> bool
    ensures { result ≡ list_all label_byte bytes.now }
{
    bytes.iter().all(|&b| label_byte(b))
}

// The message entry at the byte `at`, which is to start where the one before ends, at `from`.
fn message_right(file: &[u8], c: Counts, at: usize, from: usize) -> bool
    requires { (at + message_size ≤ length file.now) × (from ≤ c.text) × Sized c (length file.now) }
    ensures { result ≡ message_right file.now c at from }
{
    let start = read16(file, at);
    let size = read16(file, at + 2);
    if start != from {
        return false;
    }
    if size < 1 {
        return false;
    }
    if LONGEST_LABEL < size {
        return false;
    }
    if c.text < from + size {
        return false;
    }
    let start = text_at(c) + from;
    let end = start + size;
    label_bytes(&file[start..end])
}

pub fn check_messages(file: &[u8], c: Counts) -> Result<(), Fault>
    requires { Sized c (length file.now) }
    ensures { result ≡ verdict_of (messages_right file.now c (messages_at c) c.messages 0) }
{
    let first = messages_at(c);
    let mut from = 0;
    for k in 0..c.messages {
        let at = first + MESSAGE_SIZE * k;
        if !message_right(file, c, at, from) {
            return Err(Fault::BadMessage(at));
        }
        from += read16(file, at + 2);
    }
    if from != c.text {
        return Err(Fault::TextLeft);
    }
    Ok(())
}
