// The table of an extended score's items: a row of four words for each.
// The rooms are lent and nothing allocates, so how many words are filled, and the byte that is read, stand beside their slices.
ghost use Rattle.std.specs.Prelude.{◌≡◌, [], ◌∷◌, ◌+◌, ◌*◌, ◌≤◌, ◌<◌, length};
ghost use Rattle.ascii.specs.Laying.{Laid};
ghost use Rattle.contents.specs.Limits.{most_items};
ghost use Rattle.extended.specs.Inner.{word_range, Foldable};
ghost use Rattle.shapes.specs.Limits.{row_words};
ghost use Rattle.tables.specs.Tables.{row_of, Tabled};
ghost use Rattle.tables.specs.Inner.{RowIn};

use crate::counting::{count_values, times_of};
use crate::reading::item_of;
use contents::limits::MOST_ACTIONS;
use extended::{Extent, Folded, points_of};
use shapes::ROW_WORDS;

// One word more.
fn put_word(table: &mut [u32], at: usize, n: usize) -> usize
    requires { (at + 1 ≤ length table.old) × (n < word_range) }
    ensures { Laid table.old at (n ∷ []) table.new result }
{
    table[at] = n as u32;
    at + 1
}

// An item's row, with its times and how many values stand before its own.
fn put_row(table: &mut [u32], at: usize, i: Folded, times: usize, first: usize) -> usize
    requires { RowIn (length table.old) at i times first }
    ensures { Laid table.old at (row_of i times first) table.new result }
{
    let at = put_word(table, at, i.item.kind);
    let at = put_word(table, at, i.item.last);
    let at = put_word(table, at, times);
    put_word(table, at, first)
}

// The table of all items at the front of `table`; its end as it was. Answers how many values all curves have together: none as soon as there are more than the
// actions that a score can have, since what is left can only add to them.
pub fn fill_table(file: &[u8], c: Extent, table: &mut [u32]) -> Option<usize>
    requires { Foldable file.now c × (c.items ≤ most_items) × (row_words * most_items ≤ length table.old) }
    ensures { Tabled file.now c table.old table.new result }
{
    let mut used = 0;
    let mut first = 0;
    for k in 0..c.items {
        let i = item_of(file, c, k);
        let n = count_values(file, c, used, i);
        let next = first + n;
        if MOST_ACTIONS < next {
            return None;
        }
        let times = times_of(i, n);
        put_row(table, ROW_WORDS * k, i, times, first);
        first = next;
        used += points_of(i);
    }
    Some(first)
}
