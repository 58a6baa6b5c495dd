// "1 to 10 digits", below the limit of a field.
ghost use Rattle.std.specs.Prelude.{◌≡◌, ◌+◌, ◌≤◌, ◌<◌, ◌^◌, length, drop};
ghost use Rattle.tokens.specs.Tokens.{number};
ghost use Rattle.tokens.specs.Asked.{ended_as, Reads};

use crate::Token;
use ascii::is_digit;

const MOST_DIGITS: usize = 10;

// The n digits from `at` on were all there are.
fn ended(at: usize, n: usize, sum: u64, limit: u64) -> Result<Token, usize>
    requires { at + n < 2 ^ 64 }
    ensures { result ≡ ended_as at n sum limit }
{
    if n < 1 || limit <= sum {
        return Err(at);
    }
    Ok(Token {
        value: sum,
        next: at + n,
    })
}

// The number from `at` on.
pub fn number(text: &[u8], at: usize, limit: u64) -> Result<Token, usize>
    requires { (at ≤ length text.now) × (1 ≤ limit) }
    ensures { Reads text.now limit (number limit (drop at text.now)) result }
{
    let mut sum = 0;
    for i in at..text.len() {
        let b = text[i];
        if !is_digit(b) {
            return ended(at, i - at, sum, limit);
        }
        if MOST_DIGITS <= i - at {
            return Err(at);
        }
        sum = 10 * sum + u64::from(b - b'0');
    }
    ended(at, text.len() - at, sum, limit)
}
