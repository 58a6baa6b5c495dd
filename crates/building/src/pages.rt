// The unfolded items, one behind the other. A body is at least one level deeper than what holds it, so there are never more than eight at a time.
// The rooms are lent and nothing allocates, so the byte at which the next one goes stands beside its room.
ghost use Rattle.std.specs.Prelude.{◌≡◌, ◌+◌, ◌≤◌, length};
ghost use Rattle.ascii.specs.Laying.{Laid};
ghost use Rattle.contents.specs.Limits.{most_items};
ghost use Rattle.extended.specs.Inner.{SmallFolded};
ghost use Rattle.unfolding.specs.Unfolded.{end, group, passes, becomes, unfolded, items};
ghost use Rattle.building.specs.Rows.{numbered_at, numbered_in};
ghost use Rattle.building.specs.Inner.{page_bytes, Tabled, Buildable};

use crate::curves::build_values;
use crate::groups::{put_group, put_pass};
use crate::told::{body_at, first_at, size_of, times_at};
use extended::layout::FOLDED_SIZE;
use extended::{Folded, folded_at};
use filing::put_item;

// What is read: an extended score, the byte at which its items start, the table of their shapes, and the curves' message numbers.
#[derive(Clone, Copy)]
pub struct Source<'a> {
    pub file: &'a [u8],
    pub start: usize,
    pub table: &'a [u32],
    pub numbers: &'a [u16],
}

// The `count` items from item `k` on, under `d` levels.
#[cycle(build_item_build_items_build_loop_build_passes)]
pub fn build_items(s: Source, k: usize, count: usize, d: usize, out: &mut [u8], to: usize) -> usize
    requires { Tabled s.file.now s.start s.table.now s.numbers.now k count × Buildable (length out.old) to d (unfolded (numbered_in s.file.now s.start s.table.now s.numbers.now k count)) }
    ensures { Laid out.old to (page_bytes (unfolded (numbered_in s.entry.file.now s.entry.start s.entry.table.now s.entry.numbers.now k count))) out.new result }
{
    let mut i = k;
    let mut left = count;
    let mut at = to;
    // No range: an item passes all that lies within it.
    while 0 < left {
        let body = body_at(s.table, i, left - 1);
        at = build_item(s, i, body, d, out, at);
        i += 1 + body;
        left -= 1 + body;
    }
    at
}

// Item `k`, whose body is the `body` items after it.
#[cycle(build_item_build_items_build_loop_build_passes)]
fn build_item(s: Source, k: usize, body: usize, d: usize, out: &mut [u8], to: usize) -> usize
    requires { Tabled s.file.now s.start s.table.now s.numbers.now k (1 + body) × Buildable (length out.old) to d (becomes (numbered_at s.file.now s.start s.table.now s.numbers.now k) (unfolded (numbered_in s.file.now s.start s.table.now s.numbers.now (k + 1) body)) end) }
    ensures { Laid out.old to (page_bytes (becomes (numbered_at s.entry.file.now s.entry.start s.entry.table.now s.entry.numbers.now k) (unfolded (numbered_in s.entry.file.now s.entry.start s.entry.table.now s.entry.numbers.now (k + 1) body)) end)) out.new result }
{
    let i = folded_at(s.file, s.start + FOLDED_SIZE * k);
    let item = i.item;
    let next = k + 1;
    if item.kind == 0 {
        return put_item(out, to, item);
    }
    if item.kind == 1 {
        let deeper = d + 1;
        let n = size_of(s.table, next, body);
        let at = put_group(out, to, item, n);
        return build_items(s, next, body, deeper, out, at);
    }
    if item.kind == 2 {
        return build_loop(s, i, next, body, d, out, to);
    }
    let times = times_at(s.table, k);
    let first = first_at(s.table, k);
    let at = put_group(out, to, item, times);
    build_values(item, i.each, s.numbers, first, times, out, at)
}

// The group that the loop `i` becomes. Its body is the `body` items from item `k` on.
#[cycle(build_item_build_items_build_loop_build_passes)]
fn build_loop(
    s: Source,
    i: Folded,
    k: usize,
    body: usize,
    d: usize,
    out: &mut [u8],
    to: usize,
) -> usize
    requires { Tabled s.file.now s.start s.table.now s.numbers.now k body × SmallFolded i × Buildable (length out.old) to d (group i.item (passes i.item i.each 0 i.times (unfolded (numbered_in s.file.now s.start s.table.now s.numbers.now k body))) end) }
    ensures { Laid out.old to (page_bytes (group i.item (passes i.item i.each 0 i.times (unfolded (numbered_in s.entry.file.now s.entry.start s.entry.table.now s.entry.numbers.now k body))) end)) out.new result }
{
    let times = i.times;
    let item = i.item;
    if times == 0 {
        return put_group(out, to, item, 0);
    }
    let n = size_of(s.table, k, body);
    let at = put_group(out, to, item, times + times * n);
    build_passes(s, i, k, body, n, d + 1, out, at)
}

// The passes of the loop `i`, whose body unfolds to `n` items.
#[cycle(build_item_build_items_build_loop_build_passes)]
fn build_passes(
    s: Source,
    i: Folded,
    k: usize,
    body: usize,
    n: usize,
    d: usize,
    out: &mut [u8],
    to: usize,
) -> usize
    requires { Tabled s.file.now s.start s.table.now s.numbers.now k body × SmallFolded i × (n ≡ items (unfolded (numbered_in s.file.now s.start s.table.now s.numbers.now k body))) × (n ≤ most_items) × Buildable (length out.old) to d (passes i.item i.each 0 i.times (unfolded (numbered_in s.file.now s.start s.table.now s.numbers.now k body))) }
    ensures { Laid out.old to (page_bytes (passes i.item i.each 0 i.times (unfolded (numbered_in s.entry.file.now s.entry.start s.entry.table.now s.entry.numbers.now k body)))) out.new result }
{
    let item = i.item;
    let period = i.each;
    let times = i.times;
    let mut at = to;
    let mut delay = 0;
    for _ in 0..times {
        let next = put_pass(out, at, item, delay, n);
        at = build_items(s, k, body, d + 1, out, next);
        delay = period;
    }
    at
}
