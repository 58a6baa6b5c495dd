// The first pass: the first fault, or how much there is.
ghost use Rattle.std.specs.Prelude.{◌≡◌};
ghost use Rattle.text.specs.Said.{said};
ghost use Rattle.script.specs.Tallies.{tally_of, counted_in, Countable};

use crate::Found;
use crate::grammar::{is_over, line};
use crate::stages::after;
use contents::Counts;
use text::Stage;
use tokens::past_blanks;

// One line more.
#[tactic(auto, unfolding(crate::specs::Tallies::counted_in, crate::specs::Tallies::size_in))]
fn count(found: Found, c: Counts) -> Counts
    requires { Countable found c }
    ensures { result ≡ counted_in found c }
{
    match found {
        Found::Heading => c,
        Found::Message { size, .. } => Counts {
            messages: c.messages + 1,
            text: c.text + size,
            ..c
        },
        Found::Event { .. } => Counts {
            events: c.events + 1,
            ..c
        },
        Found::Part { .. } => c,
        Found::Send { .. } => Counts {
            items: c.items + 1,
            ..c
        },
        Found::Group { .. } => Counts {
            items: c.items + 1,
            ..c
        },
        Found::Close => c,
    }
}

// How much the text has of each kind, or its first fault.
pub fn tally_text(text: &[u8]) -> Result<Counts, usize>
    ensures { result ≡ tally_of (said text.now) }
{
    let mut at = 0;
    let mut stage = Stage::Start;
    let mut counts = Counts {
        events: 0,
        items: 0,
        messages: 0,
        text: 0,
    };
    loop {
        let from = past_blanks(text, at);
        if is_over(text, from, stage) {
            return Ok(counts);
        }
        let s = line(text, from, stage)?;
        counts = count(s.found, counts);
        stage = after(s.found, stage);
        at = s.next;
    }
}
