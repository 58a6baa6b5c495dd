// "any number of blanks: space, tab, carriage return, newline, and `#` with all up to the end of its line"
ghost use Rattle.std.specs.Prelude.{◌≡◌, ◌≤◌, length};
ghost use Rattle.tokens.specs.Bytes.{is_blank};
ghost use Rattle.tokens.specs.Asked.{PassesComment, InBlanks, Passes};

use ascii::{NEWLINE, SPACE};

const HASH: u8 = b'#';

fn is_blank(b: u8) -> bool
    ensures { result ≡ is_blank b }
{
    match b {
        b' ' => true,
        b'\t' => true,
        b'\r' => true,
        b'\n' => true,
        _ => false,
    }
}

// The newline that ends the line of a comment, from within it, or the text's end.
fn past_comment(text: &[u8], at: usize) -> usize
    requires { at ≤ length text.now }
    ensures { PassesComment text.now at result }
{
    for i in at..text.len() {
        if text[i] == NEWLINE {
            return i;
        }
    }
    text.len()
}

// The first byte from `at` on that is no space: most blanks are spaces, and this way they cost least.
fn past_spaces(text: &[u8], at: usize) -> usize
    requires { at ≤ length text.now }
    ensures { InBlanks text.now at result }
{
    for i in at..text.len() {
        if text[i] != SPACE {
            return i;
        }
    }
    text.len()
}

// The first byte from `at` on that is no blank, or the text's end.
pub fn past_blanks(text: &[u8], at: usize) -> usize
    requires { at ≤ length text.now }
    ensures { Passes text.now at result }
{
    let mut i = past_spaces(text, at);
    // A while loop, since how far a step goes is what the calls answer.
    while i < text.len() {
        let b = text[i];
        if is_blank(b) {
            i = past_spaces(text, i + 1);
            continue;
        }
        if b != HASH {
            return i;
        }
        i = past_comment(text, i + 1);
    }
    i
}
