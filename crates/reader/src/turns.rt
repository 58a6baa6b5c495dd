// One line after the other.
ghost use Rattle.reader.specs.Turns.{Turnable, Turns};

use script::{Found, after, is_over, line};
use text::Stage;
use tokens::past_blanks;

// A line, the byte behind it and what may stand there.
#[derive(Clone, Copy)]
pub struct Turn {
    pub found: Found,
    pub next: usize,
    pub stage: Stage,
}

// The line from `at` on of a text that has no fault; none where the text is over.
// A place beside the text, as in tokens: what stands before it is a part of the clause.
pub fn next_line(text: &[u8], at: usize, stage: Stage) -> Option<Turn>
    requires { Turnable text.now at stage }
    ensures { Turns text.now at stage result }
{
    let from = past_blanks(text, at);
    if is_over(text, from, stage) {
        return None;
    }
    let s = line(text, from, stage).unwrap();
    Some(Turn {
        found: s.found,
        next: s.next,
        stage: after(s.found, stage),
    })
}
