// beats = number [ "/" number ], with no blank within.
ghost use Rattle.std.specs.Prelude.{◌≡◌, ◌≤◌, ◌<◌, length, drop};
ghost use Rattle.tokens.specs.Beats.{field, beats};
ghost use Rattle.tokens.specs.Asked.{valued_as, Reads};

use crate::Token;
use crate::numbers::number;

pub const FIELD: u64 = 4294967296;

const GRAINS_OF_A_BEAT: u64 = 5040;

pub const SLASH: u8 = b'/';

// The grains of n / d, which stands from `at` to `next`.
fn valued(at: usize, n: u64, d: u64, next: usize) -> Result<Token, usize>
    requires { n < field }
    ensures { result ≡ valued_as at n d next }
{
    if d == 0 {
        return Err(at);
    }
    let whole = n * GRAINS_OF_A_BEAT;
    if 0 < whole % d {
        return Err(at);
    }
    let grains = whole / d;
    if FIELD <= grains {
        return Err(at);
    }
    Ok(Token {
        value: grains,
        next,
    })
}

// The delay from `at` on.
pub fn beats(text: &[u8], at: usize) -> Result<Token, usize>
    requires { at ≤ length text.now }
    ensures { Reads text.now field (beats (drop at text.now)) result }
{
    let n = number(text, at, FIELD)?;
    if text.len() <= n.next || text[n.next] != SLASH {
        return valued(at, n.value, 1, n.next);
    }
    let d = number(text, n.next + 1, FIELD)?;
    valued(at, n.value, d.value, d.next)
}
