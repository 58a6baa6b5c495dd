// "event" beats, "part" number: what stands behind the word.
ghost use Rattle.std.specs.Prelude.{◌≤◌, length, drop};
ghost use Rattle.text.specs.Grammar.{timed, parted};
ghost use Rattle.script.specs.Steps.{Lines};

use crate::{Found, Step};
use tokens::{beats, number};

// "a part below 256"
const PART_FIELD: u64 = 256;

// An event's duration.
pub fn timed(text: &[u8], at: usize) -> Result<Step, usize>
    requires { at ≤ length text.now }
    ensures { Lines text.now (timed (drop at text.now)) result }
{
    let d = beats(text, at)?;
    Ok(Step {
        found: Found::Event { grains: d.value },
        next: d.next,
    })
}

// A part's number.
pub fn parted(text: &[u8], at: usize) -> Result<Step, usize>
    requires { at ≤ length text.now }
    ensures { Lines text.now (parted (drop at text.now)) result }
{
    let n = number(text, at, PART_FIELD)?;
    Ok(Step {
        found: Found::Part { number: n.value },
        next: n.next,
    })
}
