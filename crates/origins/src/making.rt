// What a line that was read makes, and where its token stands.
// A `match` for each definition, an arm for each kind of line. A place beside the text, as in tokens.
ghost use Rattle.std.specs.Prelude.{◌≡◌, ◌≤◌, length, drop};
ghost use Rattle.base.specs.Tests.{pick};
ghost use Rattle.tokens.specs.Tokens.{left_by, blanks, number};
ghost use Rattle.text.specs.Words.{any_number};
ghost use Rattle.script.specs.Steps.{line_in};
ghost use Rattle.origins.specs.Origins.{token_in};
ghost use Rattle.origins.specs.Aims.{added_by, listed_in, Begins};

use contents::Counts;
use script::{ANY_NUMBER, Found};
use tokens::{number, past_blanks};

// A function beside the struct: the seven rows of `added_by` are a table of it.
fn counts(events: usize, items: usize, messages: usize, text: usize) -> Counts
    ensures { result ≡ record { events = events; items = items; messages = messages; text = text } }
{
    Counts {
        events,
        items,
        messages,
        text,
    }
}

// How much the line adds to the counts.
#[tactic(auto, unfolding(crate::specs::Aims::added_by))]
pub fn added_by(found: Found) -> Counts
    ensures { result ≡ added_by found }
{
    match found {
        Found::Heading => counts(0, 0, 0, 0),
        Found::Message { size, .. } => counts(0, 0, 1, size),
        Found::Event { .. } => counts(1, 0, 0, 0),
        Found::Part { .. } => counts(0, 0, 0, 0),
        Found::Send { .. } => counts(0, 1, 0, 0),
        Found::Group { .. } => counts(0, 1, 0, 0),
        Found::Close => counts(0, 0, 0, 0),
    }
}

// Where the message list ends, as far as it was read: behind this line where it is one of the list, else where it ended before.
#[tactic(auto, unfolding(crate::specs::Aims::listed_in, base::specs::Tests::pick))]
pub fn list_end(found: Found, listed: usize, next: usize) -> usize
    ensures { result ≡ pick (listed_in found) next listed }
{
    match found {
        Found::Heading => next,
        Found::Message { .. } => next,
        Found::Event { .. } => listed,
        Found::Part { .. } => listed,
        Found::Send { .. } => listed,
        Found::Group { .. } => listed,
        Found::Close => listed,
    }
}

// The quote of the message that stands from `at` on.
fn quote_at(text: &[u8], at: usize) -> usize
    requires { at ≤ length text.now }
    ensures { Begins text.now (blanks (left_by (number any_number (drop at text.now)))) result }
{
    match number(text, at, ANY_NUMBER) {
        Ok(n) => past_blanks(text, n.next),
        Err(fault) => past_blanks(text, fault),
    }
}

// "the event's `event`, the item's first byte, the label's quote" of the line that stands from `at` on.
pub fn token_at(text: &[u8], at: usize, found: Found) -> usize
    requires { at ≤ length text.now }
    ensures { Begins text.now (token_in (line_in text.now found) (drop at text.now)) result }
{
    match found {
        Found::Heading => at,
        Found::Message { .. } => quote_at(text, at),
        Found::Event { .. } => at,
        Found::Part { .. } => at,
        Found::Send { .. } => at,
        Found::Group { .. } => at,
        Found::Close => at,
    }
}
