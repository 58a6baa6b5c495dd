// The entry at fault, its name for people, and the name of the field that an item's rule is about.
// A place beside the bytes, as in ascii's laying, and each asks for room by a clause: a type around the lent bytes would be built at each call, and taken apart again in it.
// A `match` for each definition of Entries, an arm for each of its cases: a fault or an entry that is added has to be given its words here.
ghost use Rattle.std.specs.Prelude.{◌≡◌, [], ◌+◌, ◌≤◌, length, get_or};
ghost use Rattle.ascii.specs.Laying.{Laid};
ghost use Rattle.refusals.specs.Entries.{entry_of, field_words, name_words, name_room, is_entry, entry_words, entry_room, rule_field, rule_room, fault_field, refusal_field, named_words, named_room};

use ascii::{put_byte, put_bytes};
use contents::limits::CONTENTS_SIZE;
use contents::{Entry, Fault, ItemRule, entry_at};
use session::{Refusal, refusal_row};
use wording::{placed, put_counted};

// The mark before an entry's name.
pub const COMMA: u8 = b',';

pub const COLON: u8 = b':';

// The entry at fault, by the counts that the file itself gives.
pub fn entry_of(file: &[u8], x: Refusal) -> Entry
    ensures { result ≡ entry_of file.now x }
{
    if !placed(x) {
        return Entry::Nowhere;
    }
    if file.len() < CONTENTS_SIZE {
        return Entry::Nowhere;
    }
    entry_at(contents::read_counts(file), refusal_row(x).place)
}

// The name of a field of the table of contents.
// Tried as a table of the words with `get`, and that what it hands out is the row of `field_words` was not proved.
fn put_field(out: &mut [u8], at: usize, k: usize) -> usize
    requires { at + name_room ≤ length out.old }
    ensures { Laid out.old at (get_or field_words k []) out.new result × (result ≤ at + name_room) }
{
    match k {
        0 => put_bytes(out, at, b" offset of the events"),
        1 => put_bytes(out, at, b" count of events"),
        2 => put_bytes(out, at, b" offset of the items"),
        3 => put_bytes(out, at, b" count of items"),
        4 => put_bytes(out, at, b" offset of the messages"),
        5 => put_bytes(out, at, b" count of messages"),
        6 => put_bytes(out, at, b" offset of the text"),
        7 => put_bytes(out, at, b" count of text bytes"),
        _ => at,
    }
}

// The name of an entry behind the first `at` bytes. Answers where the next byte goes.
#[tactic(auto, unfolding(crate::specs::Entries::name_words))]
fn put_name(out: &mut [u8], at: usize, e: Entry) -> usize
    requires { at + name_room ≤ length out.old }
    ensures { Laid out.old at (name_words e) out.new result × (result ≤ at + name_room) }
{
    match e {
        Entry::Nowhere => at,
        Entry::Contents(k) => put_field(out, at, k),
        Entry::Event(n) => put_counted(out, at, b" event ", n),
        Entry::Item(n) => put_counted(out, at, b" item ", n),
        Entry::Message(n) => put_counted(out, at, b" message ", n),
    }
}

// No `matches!`, which would take an entry that is added for one with a name.
#[tactic(auto, unfolding(crate::specs::Entries::is_entry))]
fn is_entry(e: Entry) -> bool
    ensures { result ≡ is_entry e }
{
    match e {
        Entry::Nowhere => false,
        Entry::Contents(_) => true,
        Entry::Event(_) => true,
        Entry::Item(_) => true,
        Entry::Message(_) => true,
    }
}

// The name of an entry, if there is one, behind this mark.
pub fn put_entry(out: &mut [u8], at: usize, mark: u8, e: Entry) -> usize
    requires { at + entry_room ≤ length out.old }
    ensures { Laid out.old at (entry_words mark e) out.new result × (result ≤ at + entry_room) }
{
    if !is_entry(e) {
        return at;
    }
    let at = put_byte(out, at, mark);
    put_name(out, at, e)
}

// The name of the field that a rule is about, behind the first `at` bytes. Answers where the next byte goes.
#[tactic(auto, unfolding(crate::specs::Entries::rule_field))]
fn put_rule_field(out: &mut [u8], at: usize, r: ItemRule) -> usize
    requires { at + rule_room ≤ length out.old }
    ensures { Laid out.old at (rule_field r) out.new result × (result ≤ at + rule_room) }
{
    match r {
        ItemRule::Kind => put_bytes(out, at, b", kind"),
        ItemRule::Synchrony => put_bytes(out, at, b", synchrony"),
        ItemRule::ErrorWord => put_bytes(out, at, b", error word"),
        ItemRule::Part => put_bytes(out, at, b", part"),
        ItemRule::Delay => put_bytes(out, at, b", delay"),
        ItemRule::Event => put_bytes(out, at, b", event"),
        ItemRule::Nesting => put_bytes(out, at, b", last"),
        ItemRule::Message => put_bytes(out, at, b", last"),
        ItemRule::Actions => at,
    }
}

// The same for every fault, and for every refusal.
#[tactic(auto, unfolding(crate::specs::Entries::fault_field))]
fn put_fault_field(out: &mut [u8], at: usize, x: Fault) -> usize
    requires { at + rule_room ≤ length out.old }
    ensures { Laid out.old at (fault_field x) out.new result × (result ≤ at + rule_room) }
{
    match x {
        Fault::FileShort => at,
        Fault::BadCount(_) => at,
        Fault::BadOffset(_) => at,
        Fault::BadLength => at,
        Fault::BadEvent(_) => at,
        Fault::BadItem(rule, _) => put_rule_field(out, at, rule),
        Fault::BadMessage(_) => at,
        Fault::TextLeft => at,
        Fault::NoMessage => at,
    }
}

#[tactic(auto, unfolding(crate::specs::Entries::refusal_field))]
fn put_refusal_field(out: &mut [u8], at: usize, x: Refusal) -> usize
    requires { at + rule_room ≤ length out.old }
    ensures { Laid out.old at (refusal_field x) out.new result × (result ≤ at + rule_room) }
{
    match x {
        Refusal::MemoryShort => at,
        Refusal::RoomShort => at,
        Refusal::File(f) => put_fault_field(out, at, f),
        Refusal::BadTempo => at,
        Refusal::BadGrace => at,
        Refusal::NoSession => at,
        Refusal::NoEvent => at,
        Refusal::NotAfter => at,
        Refusal::BadMillis => at,
        Refusal::ClockFull => at,
    }
}

// The name of an entry behind this mark, and of the field of it that is at fault.
pub fn put_named(out: &mut [u8], at: usize, mark: u8, e: Entry, x: Refusal) -> usize
    requires { at + named_room ≤ length out.old }
    ensures { Laid out.old at (named_words mark e x) out.new result × (result ≤ at + named_room) }
{
    let at = put_entry(out, at, mark, e);
    put_refusal_field(out, at, x)
}
