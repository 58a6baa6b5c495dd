// The walk of the item table: each item, then those within it, then those after it.
ghost use Rattle.std.specs.Prelude.{◌≡◌, ◌+◌, ◌*◌, ◌≤◌, length, IfOk};
ghost use Rattle.contents.specs.Limits.{item_size, most_actions};
ghost use Rattle.contents.specs.Replies.{verdict_of};
ghost use Rattle.contents.specs.Contents.{items_at};
ghost use Rattle.contents.specs.Inner.{Sized};
ghost use Rattle.items.specs.Items.{item_at, items_from, item_right, broken_at, walked, items_right};
ghost use Rattle.items.specs.Inner.{step_of, judged, broken_by, StepFits, Room, Walkable};

use crate::broken::rule_broken;
use crate::{Setting, item_at, item_right};
use contents::limits::ITEM_SIZE;
use contents::{Counts, Fault, items_at, rule_row};
use page::Item;

// What the walk goes on with after a right item: the items within it and after it, the actions so far, and its event and part.
#[derive(Clone, Copy)]
pub struct Step {
    pub body: usize,
    pub after: usize,
    pub actions: usize,
    pub event: usize,
    pub part: usize,
}

// What the walk goes on with after a right item of this event and part.
fn going_on(event: usize, part: usize, body: usize, after: usize, actions: usize) -> Step
    ensures { result ≡ record { body = body; after = after; actions = actions; event = event; part = part } }
{
    Step {
        body,
        after,
        actions,
        event,
        part,
    }
}

fn accepted(i: Item, left: usize, actions: usize) -> Step
    requires { Room i left actions }
    ensures { (result ≡ step_of i left actions) × StepFits left result }
{
    if i.kind == 0 {
        return going_on(i.event, i.part, 0, left, actions + 1);
    }
    going_on(i.event, i.part, i.last, left - i.last, actions)
}

// The fault of a wrong item at the byte `at`: the first rule that it breaks, at the rule's field.
fn fault_at(file: &[u8], c: Counts, at: usize, h: Setting, left: usize, actions: usize) -> Fault
    requires { at + item_size ≤ length file.now }
    ensures { result ≡ broken_at at (broken_by (item_right (item_at file.now at) c h left actions)) }
{
    let i = item_at(file, at);
    let rule = rule_broken(i, c, h, left, actions);
    let place = at + rule_row(rule).offset;
    Fault::BadItem(rule, place)
}

// The item at the byte `at`, which `left` items follow within what holds it.
fn judge(
    file: &[u8],
    c: Counts,
    at: usize,
    h: Setting,
    left: usize,
    actions: usize,
) -> Result<Step, Fault>
    requires { (at + item_size ≤ length file.now) × (actions ≤ most_actions) }
    ensures told { result ≡ judged at (item_at file.now at) c h left actions }
    ensures fits { IfOk result (StepFits left) }
{
    let i = item_at(file, at);
    if !item_right(i, c, h, left, actions) {
        return Err(fault_at(file, c, at, h, left, actions));
    }
    Ok(accepted(i, left, actions))
}

// The `count` items from the byte `at` on, and all within them: how many actions there are then, or the fault of the first bad item. The items of a group are fewer than those of
// what holds it.
fn walk_items(
    file: &[u8],
    c: Counts,
    at: usize,
    count: usize,
    h: Setting,
    actions: usize,
) -> Result<usize, Fault>
    requires { Walkable (length file.now) at count h actions }
    ensures { result ≡ walked c at (items_from file.now at count) h actions }
{
    let mut i = at;
    let mut left = count;
    let mut event = h.event;
    let mut part = h.part;
    let mut n = actions;
    let depth = h.depth;
    // No `for`: how far a step goes is what the item says.
    while 0 < left {
        let around = Setting { depth, event, part };
        let s = judge(file, c, i, around, left - 1, n)?;
        let inner = Setting {
            depth: depth + 1,
            event: 0,
            part: s.part,
        };
        n = walk_items(file, c, i + ITEM_SIZE, s.body, inner, s.actions)?;
        event = s.event;
        part = s.part;
        i += ITEM_SIZE + ITEM_SIZE * s.body;
        left = s.after;
    }
    Ok(n)
}

pub fn check_items(file: &[u8], c: Counts) -> Result<(), Fault>
    requires { Sized c (length file.now) }
    ensures { result ≡ verdict_of (items_right c (items_from file.now (items_at c) c.items)) }
{
    let outset = Setting {
        depth: 1,
        event: 0,
        part: 0,
    };
    walk_items(file, c, items_at(c), c.items, outset, 0)?;
    Ok(())
}
