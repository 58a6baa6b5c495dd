// What the table says of an item: how many items it has within it, how many its body unfolds to, and where its message numbers are.
ghost use Rattle.std.specs.Prelude.{◌≡◌, min, ◌+◌, ◌*◌, ◌<◌, ◌≤◌, length};
ghost use Rattle.contents.specs.Limits.{most_items, most_actions, deepest};
ghost use Rattle.shapes.specs.Limits.{row_words, word_range};
ghost use Rattle.shapes.specs.Shapes.{shape_at, shapes_from, within_of, unfolded, items, actions, depth};
ghost use Rattle.building.specs.Rows.{first_at};

use shapes::{ROW_WORDS, shape_at, size_items, within_of};

pub fn first_at(table: &[u32], k: usize) -> usize
    requires { row_words * (k + 1) ≤ length table.now }
    ensures { (result ≡ first_at table.now k) × (result < word_range) }
{
    let at = ROW_WORDS * k;
    table[at + 3] as usize
}

pub fn times_at(table: &[u32], k: usize) -> usize
    requires { row_words * (k + 1) ≤ length table.now }
    ensures { (result ≡ (shape_at table.now k).times) × (result < word_range) }
{
    let s = shape_at(table, k);
    s.times
}

// How many of the `left` items after item `k` lie within it.
pub fn body_at(table: &[u32], k: usize, left: usize) -> usize
    requires { row_words * (k + 1) ≤ length table.now }
    ensures { result ≡ min (within_of (shape_at table.now k)) left }
{
    within_of(shape_at(table, k)).min(left)
}

// How many items these items unfold to, where their sizes are within the limits.
pub fn size_of(table: &[u32], k: usize, count: usize) -> usize
    requires { (row_words * (k + count) ≤ length table.now) × (items (unfolded (shapes_from table.now k count)) ≤ most_items) × (actions (unfolded (shapes_from table.now k count)) ≤ most_actions) × (depth (unfolded (shapes_from table.now k count)) ≤ deepest) }
    ensures { (result ≡ items (unfolded (shapes_from table.now k count))) × (result ≤ most_items) }
{
    let Some(s) = size_items(table, k, count, 0, 1, 0, 0) else {
        return 0;
    };
    s.items
}
