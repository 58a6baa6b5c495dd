// The words of the text form, as they are and in small letters.
ghost use Rattle.std.specs.Prelude.{◌≡◌, ◌≤◌, length, take, drop};
ghost use Rattle.ascii.specs.Laying.{Laid};
ghost use Rattle.hints.specs.Hints.{is_one_of, group_words, all_words, all_lowered, word_room, is_capital};

use tokens::is_word;

const WORD_ROOM: usize = 9;

// Whether one of a group's words stands at `at`.
pub fn is_group_word(text: &[u8], at: usize) -> bool
    requires { at ≤ length text.now }
    ensures { result ≡ is_one_of group_words (drop at text.now) }
{
    if is_word(b"loose", text, at) {
        return true;
    }
    if is_word(b"tight", text, at) {
        return true;
    }
    if is_word(b"local", text, at) {
        return true;
    }
    if is_word(b"global", text, at) {
        return true;
    }
    if is_word(b"partial", text, at) {
        return true;
    }
    is_word(b"causal", text, at)
}

// Whether any word stands there.
fn is_any_word(text: &[u8], at: usize) -> bool
    requires { at ≤ length text.now }
    ensures { result ≡ is_one_of all_words (drop at text.now) }
{
    if is_word(b"messages", text, at) {
        return true;
    }
    if is_word(b"event", text, at) {
        return true;
    }
    if is_word(b"part", text, at) {
        return true;
    }
    if is_word(b"send", text, at) {
        return true;
    }
    if is_word(b"group", text, at) {
        return true;
    }
    is_group_word(text, at)
}

// Puts the bytes from `at` on, as many as show a word, in small letters to the front of `out`. Answers how many they are.
fn put_lowered(out: &mut [u8], text: &[u8], at: usize) -> usize
    requires { (at ≤ length text.now) × (word_room ≤ length out.old) }
    ensures { Laid out.old 0 (all_lowered (take word_room (drop at text.now))) out.new result }
{
    for i in 0..WORD_ROOM {
        if text.len() - at <= i {
            return i;
        }
        out[i] = text[at + i].to_ascii_lowercase();
    }
    WORD_ROOM
}

// Whether a word stands at `at` that has a capital: no word as it is, and one in small letters.
pub fn is_capital(text: &[u8], at: usize) -> bool
    requires { at ≤ length text.now }
    ensures { result ≡ is_capital (drop at text.now) }
{
    if is_any_word(text, at) {
        return false;
    }
    let mut small = [0; WORD_ROOM];
    let end = put_lowered(&mut small, text, at);
    is_any_word(&small[..end], 0)
}
