// An entry of the message list: number label.
ghost use Rattle.std.specs.Prelude.{◌≤◌, length, drop};
ghost use Rattle.text.specs.Grammar.{named, entry};
ghost use Rattle.script.specs.Steps.{Lines};

use crate::{Found, Step};
use tokens::{label, number, past_blanks};

// "1 to 10 digits": above any number that can be written.
pub const ANY_NUMBER: u64 = 10000000000;

// The label at `at`.
fn named(text: &[u8], at: usize) -> Result<Step, usize>
    requires { at ≤ length text.now }
    ensures { Lines text.now (named (drop at text.now)) result }
{
    let l = label(text, at)?;
    Ok(Step {
        found: Found::Message {
            start: at,
            size: l.value as usize,
        },
        next: l.next,
    })
}

// "The numbers in the message list are its own, 0, 1, 2 and so on; another number there is a fault at its first byte."
pub fn entry(text: &[u8], at: usize, next: usize) -> Result<Step, usize>
    requires { at ≤ length text.now }
    ensures { Lines text.now (entry next (drop at text.now)) result }
{
    let n = number(text, at, ANY_NUMBER)?;
    if n.value != next as u64 {
        return Err(at);
    }
    let quote = past_blanks(text, n.next);
    named(text, quote)
}
