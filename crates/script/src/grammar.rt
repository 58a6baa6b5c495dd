// What may stand where: a line at the front of what is left, or the text's end.
ghost use Rattle.std.specs.Prelude.{◌≡◌, ◌≤◌, length, drop};
ghost use Rattle.text.specs.declared.Stage.TheVariants.{Start, Listing, Timed, Playing};
ghost use Rattle.text.specs.Grammar.{line, may_end, is_over};
ghost use Rattle.script.specs.Steps.{Lines};

use crate::item::{closed, item};
use crate::list::entry;
use crate::marks::{parted, timed};
use crate::words::past_word;
use crate::{Found, Step};
use text::Stage;
use tokens::is_word;

// "A text may end behind its list and wherever no group is open."
fn may_end(stage: Stage) -> bool
    ensures { result ≡ may_end stage }
{
    match stage {
        Stage::Start => false,
        Stage::Listing { .. } => true,
        Stage::Timed => true,
        Stage::Playing { depth } => depth == 0,
    }
}

// Whether the text is over at `at`, where no blank stands.
pub fn is_over(text: &[u8], at: usize, stage: Stage) -> bool
    ensures { result ≡ is_over stage (drop at text.now) }
{
    if at < text.len() {
        return false;
    }
    may_end(stage)
}

// The word `messages`.
fn heading(text: &[u8], at: usize) -> Result<Step, usize>
    requires { at ≤ length text.now }
    ensures { Lines text.now (line Start (drop at text.now)) result }
{
    if !is_word(b"messages", text, at) {
        return Err(at);
    }
    Ok(Step {
        found: Found::Heading,
        next: at + 8,
    })
}

// The message of this number, or an event.
fn listed(text: &[u8], at: usize, next: usize) -> Result<Step, usize>
    requires { at ≤ length text.now }
    ensures { Lines text.now (line (Listing next) (drop at text.now)) result }
{
    if is_word(b"event", text, at) {
        let duration = past_word(text, at, 5);
        return timed(text, duration);
    }
    entry(text, at, next)
}

// A part or an event.
fn divided(text: &[u8], at: usize) -> Result<Step, usize>
    requires { at ≤ length text.now }
    ensures { Lines text.now (line Timed (drop at text.now)) result }
{
    if is_word(b"event", text, at) {
        let duration = past_word(text, at, 5);
        return timed(text, duration);
    }
    if is_word(b"part", text, at) {
        let number = past_word(text, at, 4);
        return parted(text, number);
    }
    Err(at)
}

// An item, where no group is open: a part or an event too.
fn played(text: &[u8], at: usize) -> Result<Step, usize>
    requires { at ≤ length text.now }
    ensures { Lines text.now (line (Playing 0) (drop at text.now)) result }
{
    if is_word(b"event", text, at) {
        let duration = past_word(text, at, 5);
        return timed(text, duration);
    }
    if is_word(b"part", text, at) {
        let number = past_word(text, at, 4);
        return parted(text, number);
    }
    item(text, at)
}

// The line at `at`, where no blank stands.
pub fn line(text: &[u8], at: usize, stage: Stage) -> Result<Step, usize>
    requires { at ≤ length text.now }
    ensures { Lines text.now (line stage (drop at text.now)) result }
{
    match stage {
        Stage::Start => heading(text, at),
        Stage::Listing { next } => listed(text, at, next),
        Stage::Timed => divided(text, at),
        Stage::Playing { depth } => {
            if depth == 0 {
                return played(text, at);
            }
            closed(text, at)
        }
    }
}
