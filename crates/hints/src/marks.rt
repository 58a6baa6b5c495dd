// Mistakes that single bytes show: a byte order mark, a text without its list, a decimal point.
ghost use Rattle.std.specs.Prelude.{◌≡◌, get_or};
ghost use Rattle.ascii.specs.Numbers.{is_digit};
ghost use Rattle.hints.specs.Hints.{is_point, is_first, is_mark, is_decimal};

use ascii::{begins, is_digit};
use tokens::past_blanks;

// Whether the text begins with a byte order mark, and this is its first byte.
pub fn is_mark(text: &[u8], at: usize) -> bool
    ensures { result ≡ is_mark text.now at }
{
    if at != 0 {
        return false;
    }
    begins(b"\xef\xbb\xbf", text)
}

// Whether this is the first byte of the text's first token.
pub fn is_first(text: &[u8], at: usize) -> bool
    ensures { result ≡ is_first text.now at }
{
    let first = past_blanks(text, 0);
    at == first
}

// `.` or `,`
fn is_point(b: u8) -> bool
    ensures { result ≡ is_point b }
{
    match b {
        b'.' => true,
        b',' => true,
        _ => false,
    }
}

// Whether a digit stands at `at`.
fn digit_at(text: &[u8], at: usize) -> bool
    ensures { result ≡ is_digit (get_or text.now at 0) }
{
    if text.len() <= at {
        return false;
    }
    let b = text[at];
    is_digit(b)
}

// Whether a point between two digits stands at `at`.
pub fn is_decimal(text: &[u8], at: usize) -> bool
    ensures { result ≡ is_decimal text.now at }
{
    if at < 1 {
        return false;
    }
    if !digit_at(text, at - 1) {
        return false;
    }
    if text.len() <= at {
        return false;
    }
    let b = text[at];
    if !is_point(b) {
        return false;
    }
    digit_at(text, at + 1)
}
