// "A word ends where its letters (a to z) end".
ghost use Rattle.std.specs.Prelude.{◌≡◌, ◌≤◌, length, drop};
ghost use Rattle.tokens.specs.Bytes.{is_letter};
ghost use Rattle.tokens.specs.Tokens.{is_word};

pub fn is_letter(b: u8) -> bool
    ensures { result ≡ is_letter b }
{
    match b {
        b'a'..=b'z' => true,
        _ => false,
    }
}

// Whether this word stands at `at`.
pub fn is_word(word: &[u8], text: &[u8], at: usize) -> bool
    requires { at ≤ length text.now }
    ensures { result ≡ is_word word.now (drop at text.now) }
{
    let rest = text.len() - at;
    for (i, &w) in word.iter().enumerate() {
        if rest <= i || !is_letter(text[at + i]) || w != text[at + i] {
            return false;
        }
    }
    rest <= word.len() || !is_letter(text[at + word.len()])
}
