// How big the score is that a table with loops and curves unfolds to, found before anything is made. No product wraps: what is over a limit ends the walk, and
// a factor is never above the items that it stands for. A walk into a body is at least one level deeper, so there are never more than eight at a time.
#![tactic(auto)]

ghost use Rattle.std.specs.Prelude.{◌≡◌, ◌+◌, ◌*◌, ◌<◌, ◌≤◌, length};
ghost use Rattle.shapes.specs.Limits.{row_words};
ghost use Rattle.shapes.specs.Shapes.{shape_at, shapes_from, within_of, unfolded};
ghost use Rattle.shapes.specs.Sizes.{told_from, sizes_of, own_of, Small, Bounded, Sizable};

use contents::limits::{DEEPEST, MOST_ACTIONS, MOST_ITEMS};

// A shape has the first three words of its row.
pub const ROW_WORDS: usize = 4;

// An item's shape: its kind (0 action, 1 group, 2 loop, 3 curve: the file's own number, as the definitions of shapes read it), the items within it, and how many
// passes or values it has.
#[derive(Clone, Copy)]
pub struct Shape {
    pub kind: usize,
    pub last: usize,
    pub times: usize,
}

// What one item comes to by itself.
#[derive(Clone, Copy)]
pub struct Own {
    pub each: usize,
    pub sent: usize,
    pub inner: usize,
    pub deep: usize,
    pub opened: usize,
    pub within: usize,
}

// The unfolded score's items and actions.
#[derive(Clone, Copy)]
pub struct Sizes {
    pub items: usize,
    pub actions: usize,
}

pub fn shape_at(words: &[u32], k: usize) -> Shape
    requires { row_words * (k + 1) ≤ length words.now }
    ensures { (result ≡ shape_at words.now k) × Small result }
{
    let at = ROW_WORDS * k;
    let kind = words[at] as usize;
    let last = words[at + 1] as usize;
    let times = words[at + 2] as usize;
    Shape { kind, last, times }
}

pub fn within_of(i: Shape) -> usize
    ensures { result ≡ within_of i }
{
    if i.kind == 0 {
        return 0;
    }
    if i.kind == 1 {
        return i.last;
    }
    if i.kind == 2 {
        return i.last;
    }
    0
}

fn own_of(i: Shape) -> Own
    requires { Small i }
    ensures { (result ≡ own_of i) × Bounded result }
{
    let within = within_of(i);
    if i.kind == 0 {
        return Own {
            each: 1,
            sent: 1,
            inner: 0,
            deep: 1,
            opened: 0,
            within,
        };
    }
    if i.kind == 1 {
        return Own {
            each: 1,
            sent: 0,
            inner: 1,
            deep: 1,
            opened: i.last,
            within,
        };
    }
    if i.times == 0 {
        return Own {
            each: 1,
            sent: 0,
            inner: 0,
            deep: 1,
            opened: 0,
            within,
        };
    }
    if i.kind == 2 {
        return Own {
            each: 1 + i.times,
            sent: 0,
            inner: i.times,
            deep: 2,
            opened: i.last,
            within,
        };
    }
    Own {
        each: 1 + i.times,
        sent: i.times,
        inner: 0,
        deep: 2,
        opened: 0,
        within,
    }
}

fn own_at(words: &[u32], k: usize) -> Own
    requires { row_words * (k + 1) ≤ length words.now }
    ensures { (result ≡ own_of (shape_at words.now k)) × Bounded result }
{
    own_of(shape_at(words, k))
}

// The `count` items from item `at` on, which stand `factor` times, under `depth` levels, besides so many items and actions: none where that is over a limit.
pub fn size_items(
    words: &[u32],
    at: usize,
    count: usize,
    depth: usize,
    factor: usize,
    items: usize,
    actions: usize,
) -> Option<Sizes>
    requires { Sizable (length words.now) at count depth factor items actions }
    ensures { result ≡ told_from factor depth items actions (unfolded (shapes_from words.now at count)) }
{
    let mut i = at;
    let mut left = count;
    let mut n = items;
    let mut a = actions;
    // No range: an item passes all that lies within it.
    while 0 < left {
        let o = own_at(words, i);
        let more = n + factor * o.each;
        if MOST_ITEMS < more {
            return None;
        }
        let sent = a + factor * o.sent;
        if MOST_ACTIONS < sent {
            return None;
        }
        let deeper = depth + o.deep;
        if DEEPEST < deeper {
            return None;
        }
        let body = o.opened.min(left - 1);
        let w = size_items(words, i + 1, body, deeper, factor * o.inner, more, sent)?;
        n = w.items;
        a = w.actions;
        let passed = 1 + o.within.min(left - 1);
        i += passed;
        left -= passed;
    }
    Some(Sizes {
        items: n,
        actions: a,
    })
}

// The sizes of what the first `count` items of the table unfold to, where they are within the limits.
pub fn find_sizes(words: &[u32], count: usize) -> Option<Sizes>
    requires { row_words * count ≤ length words.now }
    ensures { result ≡ sizes_of (unfolded (shapes_from words.now 0 count)) }
{
    size_items(words, 0, count, 0, 1, 0, 0)
}
