// A label in quotes: a backslash stands before each quote and each backslash of it.
// A place beside the bytes, as in ascii's laying.
ghost use Rattle.std.specs.Prelude.{[], ◌∷◌, ◌+◌, ◌≤◌, length};
ghost use Rattle.ascii.specs.Laying.{Laid};
ghost use Rattle.tokens.specs.Bytes.{backslash};
ghost use Rattle.tokens.specs.Quoted.{escaped, quoted};
ghost use Rattle.writer.specs.Phrases.{marked};

use ascii::put_byte;
use tokens::is_escaped;

const QUOTE: u8 = b'"';

const BACKSLASH: u8 = b'\\';

fn put_behind_backslash(out: &mut [u8], at: usize, b: u8) -> usize
    requires { at + 2 ≤ length out.old }
    ensures { Laid out.old at (backslash ∷ b ∷ []) out.new result }
{
    let next = put_byte(out, at, BACKSLASH);
    put_byte(out, next, b)
}

// A byte of the label.
fn put_marked(out: &mut [u8], at: usize, b: u8) -> usize
    requires { at + length (marked b) ≤ length out.old }
    ensures { Laid out.old at (marked b) out.new result }
{
    if is_escaped(b) {
        return put_behind_backslash(out, at, b);
    }
    put_byte(out, at, b)
}

// From behind the first quote on.
fn put_escaped(out: &mut [u8], at: usize, label: &[u8]) -> usize
    requires { at + length (escaped label.now) ≤ length out.old }
    ensures { Laid out.old at (escaped label.now) out.new result }
{
    let mut next = at;
    for &b in label {
        next = put_marked(out, next, b);
    }
    put_byte(out, next, QUOTE)
}

pub fn put_quoted(out: &mut [u8], at: usize, label: &[u8]) -> usize
    requires { at + length (quoted label.now) ≤ length out.old }
    ensures { Laid out.old at (quoted label.now) out.new result }
{
    let next = put_byte(out, at, QUOTE);
    put_escaped(out, next, label)
}
