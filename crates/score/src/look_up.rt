// Where a message's label lies in its file.
ghost use Rattle.std.specs.Prelude.{◌≡◌, ◌+◌, ◌≤◌, length};
ghost use Rattle.score.specs.File.{Accepted};
ghost use Rattle.score.specs.LookUp.{label_span};
ghost use Rattle.score.specs.Inner.{Granted};

use crate::check_file;
use contents::bytes::read16;
use contents::limits::MESSAGE_SIZE;
use contents::{Counts, messages_at, read_counts, text_at};

// Where a label lies in the file.
#[derive(Clone, Copy)]
pub struct Span {
    pub start: usize,
    pub size: usize,
}

// The span of message `n` of a file that is right and has it.
fn read_span(file: &[u8], c: Counts, n: usize) -> Span
    requires { Granted file.now c n }
    ensures { (result ≡ label_span file.now n) × (result.start + result.size ≤ length file.now) }
{
    let at = messages_at(c) + MESSAGE_SIZE * n;
    Span {
        start: text_at(c) + read16(file, at),
        size: read16(file, at + 2),
    }
}

// The span of any message of an accepted file: nothing where the file has no such message.
pub fn accepted_span(file: &[u8], n: u64) -> Span
    requires { Accepted file.now }
    ensures { (result ≡ label_span file.now n) × (result.start + result.size ≤ length file.now) }
{
    let c = read_counts(file);
    if c.messages as u64 <= n {
        return Span { start: 0, size: 0 };
    }
    read_span(file, c, n as usize)
}

pub fn label_span(file: &[u8], n: u64) -> Span
    ensures { (result ≡ label_span file.now n) × (result.start + result.size ≤ length file.now) }
{
    if check_file(file).is_err() {
        return Span { start: 0, size: 0 };
    }
    accepted_span(file, n)
}
