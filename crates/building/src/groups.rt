// The group that a group, a loop or a curve becomes, and the groups that a loop's passes are.
// The rooms are lent and nothing allocates, so the byte at which the next one goes stands beside its room.
ghost use Rattle.std.specs.Prelude.{◌≡◌, [], ◌∷◌, ◌+◌, ◌≤◌, ◌<◌, length};
ghost use Rattle.ascii.specs.Laying.{Laid};
ghost use Rattle.contents.specs.Limits.{item_size, most_items};
ghost use Rattle.score.specs.Encode.{item_bytes};
ghost use Rattle.extended.specs.Inner.{word_range};
ghost use Rattle.filing.specs.Pieces.{Fitting};
ghost use Rattle.unfolding.specs.Unfolded.{group_item, pass_item};

use filing::put_item;
use page::Item;
use units::Grains;

// "each becomes one group with its own delay and words": `last` items lie within it.
pub fn put_group(out: &mut [u8], at: usize, i: Item, last: usize) -> usize
    requires { (at + item_size ≤ length out.old) × Fitting i × (last ≤ most_items) }
    ensures { Laid out.old at (item_bytes (group_item i last ∷ [])) out.new result × (result ≡ at + item_size) }
{
    let g = Item { kind: 1, last, ..i };
    put_item(out, at, g)
}

// "each pass a group of the same words"
pub fn put_pass(out: &mut [u8], at: usize, i: Item, delay: usize, last: usize) -> usize
    requires { (at + item_size ≤ length out.old) × Fitting i × (delay < word_range) × (last ≤ most_items) }
    ensures { Laid out.old at (item_bytes (group_item (pass_item i delay) last ∷ [])) out.new result × (result ≡ at + item_size) }
{
    let pass = Item {
        delay: Grains(delay as u64),
        event: 0,
        ..i
    };
    put_group(out, at, pass, last)
}
