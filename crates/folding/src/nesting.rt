// "a group or loop that ends past what holds it", in a table of any depth: no recursion and no stack. Each item goes through what it holds from end to end, so
// every item is met once as a holder and once as held.
ghost use Rattle.std.specs.Prelude.{◌≡◌, ◌≤◌, ◌<◌};
ghost use Rattle.extended.specs.Folds.{held_by};
ghost use Rattle.extended.specs.Right.{end_of};
ghost use Rattle.folding.specs.Inner.{Tabled, FirstOverrun, Hopped};

use extended::layout::{FOLDED_SIZE, items_start};
use extended::{Extent, Folded, folded_at};

fn held_by(i: Folded) -> usize
    ensures { (result ≡ held_by i) × (result ≤ i.item.last) }
{
    if i.item.kind == 1 {
        return i.item.last;
    }
    if i.item.kind == 2 {
        return i.item.last;
    }
    0
}

// The number after item `k` and all within it.
fn end_at(file: &[u8], c: Extent, k: usize) -> usize
    requires { Tabled file.now c × (k < c.items) }
    ensures { (result ≡ end_of file.now k) × (k < result) }
{
    let i = folded_at(file, items_start(c) + FOLDED_SIZE * k);
    k + (1 + held_by(i))
}

// From end to end up to `stop`: the first item before `limit` that ends past it, else `limit`.
fn hop(file: &[u8], c: Extent, from: usize, stop: usize, limit: usize) -> usize
    requires { Tabled file.now c × (limit ≤ c.items) }
    ensures { Hopped file.now from stop limit result }
{
    let mut k = from;
    // No range: the next item is where this one ends.
    while k < stop {
        if limit <= k {
            return limit;
        }
        let e = end_at(file, c, k);
        if stop < e {
            return k;
        }
        k = e;
    }
    limit
}

// The first item before `most` that ends past the table or past what holds it, or `most`.
pub fn first_overrun(file: &[u8], c: Extent, most: usize) -> usize
    requires { Tabled file.now c × (most ≤ c.items) }
    ensures { FirstOverrun file.now most result }
{
    let mut limit = hop(file, c, 0, c.items, most);
    let mut i = 0;
    // No range: its end comes nearer with each overrun found.
    while i < limit {
        let stop = end_at(file, c, i);
        limit = hop(file, c, i + 1, stop, limit);
        i += 1;
    }
    limit
}
