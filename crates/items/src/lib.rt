// The item table: an item's twelve bytes, the rules that it has to keep where it stands, and the walk of them all.
#![tactic(auto)]

ghost use Rattle.std.specs.Prelude.{◌≡◌, ◌+◌, ◌≤◌, length};
ghost use Rattle.base.specs.Checks.{is_fine};
ghost use Rattle.contents.specs.Limits.{item_size};
ghost use Rattle.items.specs.Items.{item_at, kind_right, synchrony_right, error_right, part_right, delay_right, in_order, event_right, nesting_right, number_right, actions_right, item_right};
ghost use Rattle.items.specs.Inner.{fields_right, standing_right};

use contents::Counts;
use contents::bytes::{byte, read16, read32};
use contents::limits::{DEEPEST, LAST_PART, LONGEST, MOST_ACTIONS};
use page::Item;
use units::Grains;

mod broken;
mod walk;

pub use walk::check_items;

// What is asked of an item: at depth 1 not to stand before this event and part, deeper to be of this part.
#[derive(Clone, Copy)]
pub struct Setting {
    pub depth: usize,
    pub event: usize,
    pub part: usize,
}

// The item at the byte `at`.
pub fn item_at(file: &[u8], at: usize) -> Item
    requires { at + item_size ≤ length file.now }
    ensures { result ≡ item_at file.now at }
{
    let delay = Grains(read32(file, at + 4) as u64);
    Item {
        kind: byte(file, at),
        synchrony: byte(file, at + 1),
        error: byte(file, at + 2),
        part: byte(file, at + 3),
        delay,
        event: read16(file, at + 8),
        last: read16(file, at + 10),
    }
}

// The rules, in the order of specs/Items. Each takes what it asks of, and no struct of all five: which rule looks at what is seen here.
fn kind_right(i: Item) -> bool
    ensures { result ≡ kind_right i }
{
    i.kind <= 1
}

fn synchrony_right(i: Item) -> bool
    ensures { result ≡ synchrony_right i }
{
    if i.kind != 0 {
        return i.synchrony <= 1;
    }
    i.synchrony == 0
}

fn error_right(i: Item) -> bool
    ensures { result ≡ error_right i }
{
    if i.kind != 0 {
        return i.error <= 3;
    }
    i.error == 0
}

fn part_right(i: Item, h: Setting) -> bool
    ensures { result ≡ part_right i h }
{
    if LAST_PART < i.part {
        return false;
    }
    if h.depth != 1 {
        return i.part == h.part;
    }
    true
}

fn delay_right(i: Item) -> bool
    ensures { result ≡ delay_right i }
{
    i.delay.0 <= LONGEST as u64
}

fn in_order(h: Setting, i: Item) -> bool
    ensures { result ≡ in_order h i }
{
    if i.event != h.event {
        return h.event < i.event;
    }
    h.part <= i.part
}

fn event_right(i: Item, c: Counts, h: Setting) -> bool
    ensures { result ≡ event_right i c h }
{
    if h.depth != 1 {
        return i.event == 0;
    }
    if i.event < 1 {
        return false;
    }
    if c.events < i.event {
        return false;
    }
    in_order(h, i)
}

fn nesting_right(i: Item, h: Setting, left: usize) -> bool
    ensures { result ≡ nesting_right i h left }
{
    if DEEPEST < h.depth {
        return false;
    }
    if i.kind != 0 {
        return i.last <= left;
    }
    true
}

fn number_right(i: Item, c: Counts) -> bool
    ensures { result ≡ number_right i c }
{
    if i.kind != 0 {
        return true;
    }
    i.last < c.messages
}

fn actions_right(i: Item, actions: usize) -> bool
    ensures { result ≡ actions_right i actions }
{
    if i.kind != 0 {
        return true;
    }
    actions < MOST_ACTIONS
}

fn fields_right(i: Item, h: Setting) -> bool
    ensures { result ≡ fields_right i h }
{
    if !kind_right(i) {
        return false;
    }
    if !synchrony_right(i) {
        return false;
    }
    if !error_right(i) {
        return false;
    }
    if !part_right(i, h) {
        return false;
    }
    delay_right(i)
}

fn standing_right(i: Item, c: Counts, h: Setting, left: usize, actions: usize) -> bool
    ensures { result ≡ standing_right i c h left actions }
{
    if !event_right(i, c, h) {
        return false;
    }
    if !nesting_right(i, h, left) {
        return false;
    }
    if !number_right(i, c) {
        return false;
    }
    actions_right(i, actions)
}

// Whether the item is right where it stands: `left` items follow it within what holds it, `actions` stand before it on the page.
pub fn item_right(i: Item, c: Counts, h: Setting, left: usize, actions: usize) -> bool
    ensures { result ≡ is_fine (item_right i c h left actions) }
{
    if !fields_right(i, h) {
        return false;
    }
    standing_right(i, c, h, left, actions)
}
