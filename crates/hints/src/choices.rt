// Which hint a refusal has: of the table's rows the first that fits.
ghost use Rattle.std.specs.Prelude.{◌≡◌, ◌≤◌, length};
ghost use Rattle.hints.specs.Hints.{hint_at, rule_hint, fault_hint};
ghost use Rattle.hints.specs.Asked.{beats_hint, word_hint};

use crate::Hint;
use crate::fractions::{is_mixed, is_uneven};
use crate::marks::{is_decimal, is_first, is_mark};
use crate::words::{is_capital, is_group_word};
use contents::{Fault, ItemRule};
use tokens::is_word;

// The rows of beats.
fn beats_hint(text: &[u8], at: usize) -> Option<Hint>
    requires { at ≤ length text.now }
    ensures { result ≡ beats_hint text.now at }
{
    if is_decimal(text, at) {
        return Some(Hint::Decimal);
    }
    if is_mixed(text, at) {
        return Some(Hint::Mixed);
    }
    if is_uneven(text, at) {
        return Some(Hint::Uneven);
    }
    None
}

// The rows of words at a wrong place, then those of beats.
fn word_hint(text: &[u8], at: usize) -> Option<Hint>
    requires { at ≤ length text.now }
    ensures { result ≡ word_hint text.now at }
{
    if is_group_word(text, at) {
        return Some(Hint::WordOrder);
    }
    if is_word(b"part", text, at) {
        return Some(Hint::InnerPart);
    }
    if is_word(b"event", text, at) {
        return Some(Hint::InnerEvent);
    }
    beats_hint(text, at)
}

// The hint of a text whose first byte that can't be stands at `at`.
pub fn hint_at(text: &[u8], at: usize) -> Option<Hint>
    requires { at ≤ length text.now }
    ensures { result ≡ hint_at text.now at }
{
    if is_mark(text, at) {
        return Some(Hint::ByteOrderMark);
    }
    if is_capital(text, at) {
        return Some(Hint::Capitals);
    }
    if is_first(text, at) {
        return Some(Hint::NoList);
    }
    word_hint(text, at)
}

// The hint of an item's rule.
fn rule_hint(r: ItemRule) -> Option<Hint>
    ensures { result ≡ rule_hint r }
{
    match r {
        ItemRule::Message => Some(Hint::PastList),
        _ => None,
    }
}

// The hint of a text that says a file which is refused.
pub fn fault_hint(x: Fault) -> Option<Hint>
    ensures { result ≡ fault_hint x }
{
    match x {
        Fault::BadItem(rule, _) => rule_hint(rule),
        _ => None,
    }
}
