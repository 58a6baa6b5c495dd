// The items of the unfolded score laid out as a file's item table, once its sizes are known to be within the limits.
#![tactic(auto)]

ghost use Rattle.std.specs.Prelude.{◌≡◌, ◌+◌, ◌*◌, ◌≤◌, length};
ghost use Rattle.ascii.specs.Laying.{Laid};
ghost use Rattle.contents.specs.Limits.{item_size, most_items, most_actions, deepest};
ghost use Rattle.score.specs.Encode.{item_bytes};
ghost use Rattle.extended.specs.Layout.{folded_size};
ghost use Rattle.shapes.specs.Limits.{row_words};
ghost use Rattle.shapes.specs.Shapes.{shapes_from};
ghost use Rattle.unfolding.specs.Unfolded.{unfolded, items, actions, depth, page};
ghost use Rattle.building.specs.Rows.{numbered_in, shapes_of};

use pages::{Source, build_items};

mod curves;
mod groups;
mod pages;
mod told;

// The `count` items of the extended score whose table starts at the byte `start`, unfolded. `table` has each item's shape and the place of its first number in
// `numbers`, a curve's message numbers.
pub fn build_page(
    file: &[u8],
    start: usize,
    table: &[u32],
    numbers: &[u16],
    count: usize,
    out: &mut [u8],
) -> usize
    requires { (start + folded_size * count ≤ length file.now) × (row_words * count ≤ length table.now) × (shapes_from table.now 0 count ≡ shapes_of (numbered_in file.now start table.now numbers.now 0 count)) × (items (unfolded (numbered_in file.now start table.now numbers.now 0 count)) ≤ most_items) × (actions (unfolded (numbered_in file.now start table.now numbers.now 0 count)) ≤ most_actions) × (depth (unfolded (numbered_in file.now start table.now numbers.now 0 count)) ≤ deepest) × (item_size * items (unfolded (numbered_in file.now start table.now numbers.now 0 count)) ≤ length out.old) }
    ensures { Laid out.old 0 (item_bytes (page (unfolded (numbered_in file.now start table.now numbers.now 0 count)))) out.new result }
{
    let s = Source {
        file,
        start,
        table,
        numbers,
    };
    build_items(s, 0, count, 0, out, 0)
}
