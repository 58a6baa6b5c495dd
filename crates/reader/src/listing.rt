// The message list: each label's entry and its bytes.
// That the text can be told is a clause: a type around it would be built at each call, and taken apart again for each line.
ghost use Rattle.filing.specs.Bodies.{ListRoom};
ghost use Rattle.reader.specs.Filled.{Tellable, Headed, Listed};

use crate::turns::next_line;
use contents::limits::MESSAGE_SIZE;
use filing::put_entry;
use script::Found;
use text::Stage;
use tokens::put_label;

// Behind the word `messages`.
fn past_heading(text: &[u8]) -> usize
    requires { Tellable text.now }
    ensures { Headed text.now result }
{
    next_line(text, 0, Stage::Start).unwrap().next
}

// The entries and the labels of the list. Answers where the page begins.
pub fn fill_list(text: &[u8], entries: &mut [u8], labels: &mut [u8]) -> usize
    requires { Tellable text.now × ListRoom entries.old labels.old }
    ensures { Listed text.now entries.new labels.new result }
{
    let mut at = past_heading(text);
    let mut n = 0;
    let mut from = 0;
    // A `while let`: where the next line begins is what the line before answers.
    while let Some(s) = next_line(text, at, Stage::Listing { next: n }) {
        let Found::Message { start, size } = s.found else {
            return at;
        };
        put_entry(entries, MESSAGE_SIZE * n, from, size);
        from = put_label(text, start, labels, from);
        n += 1;
        at = s.next;
    }
    at
}
