// Mistakes that a fraction shows: behind a whole number, or of no whole number of grains.
ghost use Rattle.std.specs.Prelude.{◌≡◌, ◌≤◌, length, drop};
ghost use Rattle.tokens.specs.Beats.{beats};
ghost use Rattle.hints.specs.Hints.{is_got, is_fractional, is_mixed, is_uneven};

use ascii::{SPACE, is_digit};
use tokens::{FIELD, SLASH, beats, number};

// Whether a number, a slash and a number stand at `at`, whatever the fraction's value.
fn is_fractional(text: &[u8], at: usize) -> bool
    requires { at ≤ length text.now }
    ensures { result ≡ is_fractional (drop at text.now) }
{
    let Ok(n) = number(text, at, FIELD) else {
        return false;
    };
    if text.len() <= n.next || text[n.next] != SLASH {
        return false;
    }
    number(text, n.next + 1, FIELD).is_ok()
}

// Whether beats stand at `at`.
fn is_beats(text: &[u8], at: usize) -> bool
    requires { at ≤ length text.now }
    ensures { result ≡ is_got (beats (drop at text.now)) }
{
    beats(text, at).is_ok()
}

// Whether a digit and a space stand before `at`, and beats that are a fraction behind them.
pub fn is_mixed(text: &[u8], at: usize) -> bool
    requires { at ≤ length text.now }
    ensures { result ≡ is_mixed text.now at }
{
    if at < 2 || text[at - 1] != SPACE || !is_digit(text[at - 2]) {
        return false;
    }
    is_fractional(text, at) && is_beats(text, at)
}

// Whether a fraction stands at `at` that is no beats.
pub fn is_uneven(text: &[u8], at: usize) -> bool
    requires { at ≤ length text.now }
    ensures { result ≡ is_uneven (drop at text.now) }
{
    is_fractional(text, at) && !is_beats(text, at)
}
