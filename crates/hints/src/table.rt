// The table of hints, row by row: what is told.
ghost use Rattle.std.specs.Prelude.{◌+◌, ◌≤◌, length, Some};
ghost use Rattle.ascii.specs.Laying.{Laid};
ghost use Rattle.hints.specs.Hints.{hint_words, hint_room};

use crate::Hint;
use ascii::put_bytes;

// The words of this row behind the first `at` bytes, which stay. Answers where the next byte goes.
fn put_row(out: &mut [u8], at: usize, h: Hint) -> usize
    requires { at + hint_room ≤ length out.old }
    ensures { Laid out.old at (hint_words (Some h)) out.new result × (result ≤ at + hint_room) }
{
    match h {
        Hint::ByteOrderMark => put_bytes(
            out,
            at,
            b"; hint: the text begins with a byte order mark, save it without one",
        ),
        Hint::Capitals => put_bytes(out, at, b"; hint: words are written in small letters"),
        Hint::NoList => put_bytes(
            out,
            at,
            b"; hint: a text begins with the word messages, also where it has none",
        ),
        Hint::WordOrder => put_bytes(
            out,
            at,
            b"; hint: group, then loose or tight, then local, global, partial or causal, each at most once",
        ),
        Hint::InnerPart => put_bytes(
            out,
            at,
            b"; hint: a group is in one part, and part stands outside of it, behind an event; is a } missing?",
        ),
        Hint::InnerEvent => put_bytes(
            out,
            at,
            b"; hint: event stands outside of groups; is a } missing?",
        ),
        Hint::Decimal => put_bytes(
            out,
            at,
            b"; hint: beats are a whole number or a fraction, 3/2 for 1.5 and 1000 for 1,000",
        ),
        Hint::Mixed => put_bytes(
            out,
            at,
            b"; hint: beats are one number or one fraction, 3/2 for 1 1/2",
        ),
        Hint::Uneven => put_bytes(
            out,
            at,
            b"; hint: a beat has 5,040 grains, and a fraction must be a whole number of them",
        ),
        Hint::PastList => put_bytes(
            out,
            at,
            b"; hint: a send names a message by its number in the list, where the first is 0",
        ),
    }
}

// The words of a hint, where there is one.
pub fn put_hint(out: &mut [u8], at: usize, h: Option<Hint>) -> usize
    requires { at + hint_room ≤ length out.old }
    ensures { Laid out.old at (hint_words h) out.new result × (result ≤ at + hint_room) }
{
    match h {
        Some(row) => put_row(out, at, row),
        None => at,
    }
}
