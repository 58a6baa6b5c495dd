// The reply table, row by row: the words of its column 'When', and whether its column 'Place' names a byte.
// A place beside the bytes, as in ascii's laying, and each asks for room by a clause: a type around the lent bytes would be built at each call, and taken apart again in it.
// A `match` is the table itself, each arm a row: a refusal that is added has to be given its words and its place here.
ghost use Rattle.std.specs.Prelude.{◌≡◌, ◌+◌, ◌≤◌, length};
ghost use Rattle.ascii.specs.Laying.{Laid};
ghost use Rattle.wording.specs.Words.{rule_words, fault_words, refusal_words, transcript_words, extended_words, unfolding_words, most_words, fault_placed, placed};

use ascii::put_bytes;
use contents::{Fault, ItemRule};
use session::Refusal;
use text::TextError;
use unfolding::UnfoldError;

// The words of an item's rule behind the first `at` bytes. Answers where the next byte goes.
#[tactic(auto, unfolding(crate::specs::Words::rule_words))]
fn put_rule_words(out: &mut [u8], at: usize, r: ItemRule) -> usize
    requires { at + most_words ≤ length out.old }
    ensures { Laid out.old at (rule_words r) out.new result × (result ≤ at + most_words) }
{
    match r {
        ItemRule::Kind => put_bytes(out, at, b"an item's kind, not 0 or 1"),
        ItemRule::Synchrony => put_bytes(
            out,
            at,
            b"an item's words, out of range or not 0 on an action",
        ),
        ItemRule::ErrorWord => put_bytes(
            out,
            at,
            b"an item's words, out of range or not 0 on an action",
        ),
        ItemRule::Part => put_bytes(out, at, b"an item's part, above 15 or not its group's"),
        ItemRule::Delay => put_bytes(
            out,
            at,
            b"an item's delay, above 5,040,000 grains (1,000 beats)",
        ),
        ItemRule::Event => put_bytes(
            out,
            at,
            b"an item's event, out of range, out of order by event and part, or not 0 within a group",
        ),
        ItemRule::Nesting => put_bytes(
            out,
            at,
            b"an item's nesting, at depth 9 or a group that ends past what holds it",
        ),
        ItemRule::Message => put_bytes(
            out,
            at,
            b"an action's message number, not below the message count",
        ),
        ItemRule::Actions => put_bytes(out, at, b"the 1,025th action"),
    }
}

// The same for every fault.
#[tactic(auto, unfolding(crate::specs::Words::fault_words))]
fn put_fault_words(out: &mut [u8], at: usize, x: Fault) -> usize
    requires { at + most_words ≤ length out.old }
    ensures { Laid out.old at (fault_words x) out.new result × (result ≤ at + most_words) }
{
    match x {
        Fault::FileShort => put_bytes(out, at, b"file under 32 bytes"),
        Fault::BadCount(_) => put_bytes(out, at, b"a count outside its limits"),
        Fault::BadOffset(_) => put_bytes(out, at, b"an offset not as above"),
        Fault::BadLength => put_bytes(out, at, b"offsets right, file length wrong"),
        Fault::BadEvent(_) => put_bytes(out, at, b"an event's duration"),
        Fault::BadItem(rule, _) => put_rule_words(out, at, rule),
        Fault::BadMessage(_) => put_bytes(out, at, b"a message entry or its label bytes"),
        Fault::TextLeft => put_bytes(out, at, b"entries right, text not used up"),
        Fault::NoMessage => put_bytes(out, at, b"no such message"),
    }
}

// The same for every refusal.
#[tactic(auto, unfolding(crate::specs::Words::refusal_words))]
pub fn put_words(out: &mut [u8], at: usize, x: Refusal) -> usize
    requires { at + most_words ≤ length out.old }
    ensures { Laid out.old at (refusal_words x) out.new result × (result ≤ at + most_words) }
{
    match x {
        Refusal::MemoryShort => put_bytes(out, at, b"session memory under 8,192 words (u64)"),
        Refusal::RoomShort => put_bytes(out, at, b"send room under 2,048 words (u64)"),
        Refusal::File(f) => put_fault_words(out, at, f),
        Refusal::BadTempo => put_bytes(out, at, b"tempo outside 1 to 50,400"),
        Refusal::BadGrace => put_bytes(out, at, b"grace above 630"),
        Refusal::NoSession => put_bytes(out, at, b"not a session"),
        Refusal::NoEvent => put_bytes(out, at, b"event number 0 or above the last"),
        Refusal::NotAfter => put_bytes(out, at, b"event not after the last one heard"),
        Refusal::BadMillis => put_bytes(out, at, b"milliseconds outside 1 to 1,000"),
        Refusal::ClockFull => put_bytes(out, at, b"the clock would pass 10^15"),
    }
}

// The same for what comes of a text.
#[tactic(auto, unfolding(crate::specs::Words::transcript_words))]
pub fn put_text_words(out: &mut [u8], at: usize, t: Result<usize, TextError>) -> usize
    requires { at + most_words ≤ length out.old }
    ensures { Laid out.old at (transcript_words t) out.new result × (result ≤ at + most_words) }
{
    match t {
        Ok(_) => put_bytes(out, at, b"done"),
        Err(TextError::NoRoom) => put_bytes(
            out,
            at,
            b"file room under 52,256 bytes, text room too short",
        ),
        Err(TextError::BadText { line: _, column: _ }) => put_bytes(
            out,
            at,
            b"text against the grammar",
        ),
        Err(TextError::BadFile { fault }) => put_fault_words(out, at, fault),
    }
}

// The words of an extended score that can't be unfolded, by its place: that of the contents is 0.
#[tactic(auto, unfolding(crate::specs::Words::extended_words))]
fn put_extended_words(out: &mut [u8], at: usize, place: usize) -> usize
    requires { at + most_words ≤ length out.old }
    ensures { Laid out.old at (extended_words place) out.new result × (result ≤ at + most_words) }
{
    if place == 0 {
        return put_bytes(out, at, b"bad extended contents; also points left over");
    }
    put_bytes(out, at, b"an item that can't be unfolded")
}

// The same for what comes of an extended score.
#[tactic(auto, unfolding(crate::specs::Words::unfolding_words))]
pub fn put_unfold_words(out: &mut [u8], at: usize, u: Result<usize, UnfoldError>) -> usize
    requires { at + most_words ≤ length out.old }
    ensures { Laid out.old at (unfolding_words u) out.new result × (result ≤ at + most_words) }
{
    match u {
        Ok(_) => put_bytes(out, at, b"done"),
        Err(UnfoldError::NoRoom) => put_text_words(out, at, Err(TextError::NoRoom)),
        Err(UnfoldError::BadExtended { place }) => put_extended_words(out, at, place),
        Err(UnfoldError::OverLimit) => put_bytes(
            out,
            at,
            b"the unfolded score would break a limit",
        ),
        Err(UnfoldError::BadFile { fault }) => put_fault_words(out, at, fault),
    }
}

// Whether the fault is at a byte of the file.
// No `matches!`, here and for every refusal, which would answer for a fault that is added.
#[tactic(auto, unfolding(crate::specs::Words::fault_placed))]
fn fault_placed(x: Fault) -> bool
    ensures { result ≡ fault_placed x }
{
    match x {
        Fault::FileShort => false,
        Fault::BadCount(_) => true,
        Fault::BadOffset(_) => true,
        Fault::BadLength => false,
        Fault::BadEvent(_) => true,
        Fault::BadItem(_, _) => true,
        Fault::BadMessage(_) => true,
        Fault::TextLeft => true,
        Fault::NoMessage => false,
    }
}

// The same for every refusal.
#[tactic(auto, unfolding(crate::specs::Words::placed))]
pub fn placed(x: Refusal) -> bool
    ensures { result ≡ placed x }
{
    match x {
        Refusal::MemoryShort => false,
        Refusal::RoomShort => false,
        Refusal::File(f) => fault_placed(f),
        Refusal::BadTempo => false,
        Refusal::BadGrace => false,
        Refusal::NoSession => false,
        Refusal::NoEvent => false,
        Refusal::NotAfter => false,
        Refusal::BadMillis => false,
        Refusal::ClockFull => false,
    }
}
