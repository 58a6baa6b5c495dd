// item = beats "send" number | beats "group" [ "loose" | "tight" ] [ "local" | "global" | "partial" | "causal" ] "{" { item } "}"
ghost use Rattle.std.specs.Prelude.{◌≤◌, ◌<◌, length, drop};
ghost use Rattle.tokens.specs.Beats.{field};
ghost use Rattle.text.specs.Grammar.{sent, opened, erring, grouped, action, item, closed};
ghost use Rattle.script.specs.Steps.{Lines};

use crate::words::{error_at, error_size, past_word, synchrony_at};
use crate::{Found, Step};
use tokens::{beats, is_word, number, past_blanks};

// "a message number after `send` below 65,536"
const MESSAGE_FIELD: u64 = 65536;

const OPENING: u8 = b'{';

const CLOSING: u8 = b'}';

// A delay is a u64 below its field, as each token's value is one: a number of the message list may have ten digits.

// The message behind `send`.
fn sent(text: &[u8], at: usize, delay: u64) -> Result<Step, usize>
    requires { (at ≤ length text.now) × (delay < field) }
    ensures { Lines text.now (sent delay (drop at text.now)) result }
{
    let n = number(text, at, MESSAGE_FIELD)?;
    Ok(Step {
        found: Found::Send {
            delay,
            number: n.value,
        },
        next: n.next,
    })
}

// The brace behind a group's words.
fn opened(text: &[u8], at: usize, delay: u64, synchrony: u64, error: u64) -> Result<Step, usize>
    requires { (at ≤ length text.now) × (delay < field) × (synchrony ≤ 1) × (error ≤ 3) }
    ensures { Lines text.now (opened delay synchrony error (drop at text.now)) result }
{
    if text.len() <= at || text[at] != OPENING {
        return Err(at);
    }
    Ok(Step {
        found: Found::Group {
            delay,
            synchrony,
            error,
        },
        next: at + 1,
    })
}

// "A group with no error word reads as local"
fn erring(text: &[u8], at: usize, delay: u64, synchrony: u64) -> Result<Step, usize>
    requires { (at ≤ length text.now) × (delay < field) × (synchrony ≤ 1) }
    ensures { Lines text.now (erring delay synchrony (drop at text.now)) result }
{
    let Some(error) = error_at(text, at) else {
        return opened(text, at, delay, synchrony, 0);
    };
    let size = error_size(error);
    let brace = past_word(text, at, size);
    opened(text, brace, delay, synchrony, error)
}

// ", one with no synchrony as loose."
fn grouped(text: &[u8], at: usize, delay: u64) -> Result<Step, usize>
    requires { (at ≤ length text.now) × (delay < field) }
    ensures { Lines text.now (grouped delay (drop at text.now)) result }
{
    let Some(synchrony) = synchrony_at(text, at) else {
        return erring(text, at, delay, 0);
    };
    let word = past_word(text, at, 5);
    erring(text, word, delay, synchrony)
}

// What stands behind a delay.
fn action(text: &[u8], at: usize, delay: u64) -> Result<Step, usize>
    requires { (at ≤ length text.now) × (delay < field) }
    ensures { Lines text.now (action delay (drop at text.now)) result }
{
    if is_word(b"send", text, at) {
        let next = past_word(text, at, 4);
        return sent(text, next, delay);
    }
    if is_word(b"group", text, at) {
        let next = past_word(text, at, 5);
        return grouped(text, next, delay);
    }
    Err(at)
}

pub fn item(text: &[u8], at: usize) -> Result<Step, usize>
    requires { at ≤ length text.now }
    ensures { Lines text.now (item (drop at text.now)) result }
{
    let d = beats(text, at)?;
    let word = past_blanks(text, d.next);
    action(text, word, d.value)
}

// The brace that closes a group, or an item within it.
pub fn closed(text: &[u8], at: usize) -> Result<Step, usize>
    requires { at ≤ length text.now }
    ensures { Lines text.now (closed (drop at text.now)) result }
{
    if text.len() <= at {
        return Err(at);
    }
    if text[at] != CLOSING {
        return item(text, at);
    }
    Ok(Step {
        found: Found::Close,
        next: at + 1,
    })
}
