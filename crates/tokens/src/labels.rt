// label = '"' { any byte but '"', '\' and newline | '\"' | '\\' } '"'
ghost use Rattle.std.specs.Prelude.{◌≡◌, ◌≤◌, length, drop};
ghost use Rattle.ascii.specs.Laying.{Laid};
ghost use Rattle.tokens.specs.Bytes.{is_escaped};
ghost use Rattle.tokens.specs.Tokens.{label, bytes_in};
ghost use Rattle.tokens.specs.Asked.{Sizes, Copyable};

use crate::Token;
use ascii::NEWLINE;

const QUOTE: u8 = b'"';

const BACKSLASH: u8 = b'\\';

// A byte that a backslash may stand before: "'\"' | '\\'".
pub fn is_escaped(b: u8) -> bool
    ensures { result ≡ is_escaped b }
{
    match b {
        b'"' => true,
        b'\\' => true,
        _ => false,
    }
}

// How many bytes the label from `at` on stands for.
pub fn label(text: &[u8], at: usize) -> Result<Token, usize>
    requires { at ≤ length text.now }
    ensures { Sizes text.now (label (drop at text.now)) result }
{
    if text.len() <= at || text[at] != QUOTE {
        return Err(at);
    }
    let mut size = 0;
    let mut rest = &text[at + 1..];
    // An escape is two bytes, so no `for` over the bytes fits.
    while let [b, after @ ..] = rest {
        rest = after;
        if *b == QUOTE {
            return Ok(Token {
                value: size,
                next: text.len() - rest.len(),
            });
        }
        if *b == NEWLINE {
            return Err(text.len() - rest.len() - 1);
        }
        if *b == BACKSLASH {
            match rest {
                [escaped, behind @ ..] if is_escaped(*escaped) => rest = behind,
                _ => return Err(text.len() - rest.len()),
            }
        }
        size += 1;
    }
    Err(text.len())
}

// Puts the label from `at` on, without the backslashes of its escapes, behind the first `to` bytes of `out`, which stay. Answers where the next byte goes.
pub fn put_label(text: &[u8], at: usize, out: &mut [u8], to: usize) -> usize
    requires { Copyable text.now at out.old to }
    ensures { Laid out.old to (bytes_in (label (drop at text.now))) out.new result }
{
    let mut next = to;
    let mut rest = &text[at + 1..];
    // An escape is two bytes, so no `for` over the bytes fits.
    while let [b, after @ ..] = rest {
        rest = after;
        if *b == QUOTE {
            return next;
        }
        if *b == BACKSLASH {
            // A label that is there has a byte behind each backslash.
            let [escaped, behind @ ..] = rest else {
                return next;
            };
            out[next] = *escaped;
            rest = behind;
        } else {
            out[next] = *b;
        }
        next += 1;
    }
    next
}
