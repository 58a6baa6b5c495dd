// The words of a group, and what stands behind a word.
ghost use Rattle.std.specs.Prelude.{◌≡◌, ◌≤◌, length, drop};
ghost use Rattle.text.specs.Grammar.{synchrony_at, error_at};
ghost use Rattle.script.specs.Steps.{Stands, PassesWord, error_size, known};

use tokens::{is_word, past_blanks};

// The first byte behind the word of this size at `at` and the blanks behind it.
pub fn past_word(text: &[u8], at: usize, size: usize) -> usize
    requires { Stands text.now at size }
    ensures { PassesWord text.now at result }
{
    past_blanks(text, at + size)
}

// "synchrony (0 loose, 1 tight)"; none where neither stands.
pub fn synchrony_at(text: &[u8], at: usize) -> Option<u64>
    requires { at ≤ length text.now }
    ensures { result ≡ known 2 (synchrony_at (drop at text.now)) }
{
    if is_word(b"loose", text, at) {
        return Some(0);
    }
    if is_word(b"tight", text, at) {
        return Some(1);
    }
    None
}

// "error word (0 local, 1 global, 2 partial, 3 causal)"; none where none stands.
pub fn error_at(text: &[u8], at: usize) -> Option<u64>
    requires { at ≤ length text.now }
    ensures { result ≡ known 4 (error_at (drop at text.now)) }
{
    if is_word(b"local", text, at) {
        return Some(0);
    }
    if is_word(b"global", text, at) {
        return Some(1);
    }
    if is_word(b"partial", text, at) {
        return Some(2);
    }
    if is_word(b"causal", text, at) {
        return Some(3);
    }
    None
}

// How many letters an error word has.
pub fn error_size(error: u64) -> usize
    ensures { result ≡ error_size error }
{
    match error {
        0 => 5,
        1 => 6,
        2 => 7,
        _ => 6,
    }
}
