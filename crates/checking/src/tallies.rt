// What is in an accepted score: how many actions, and which parts.
ghost use Rattle.std.specs.Prelude.{◌≡◌, ◌≤◌};
ghost use Rattle.contents.specs.Limits.{most_actions};
ghost use Rattle.items.specs.Items.{own_of};
ghost use Rattle.score.specs.File.{Accepted};
ghost use Rattle.score.specs.Piece.{decode};
ghost use Rattle.checking.specs.Tallies.{actions_in};
ghost use Rattle.checking.specs.Inner.{marked};

use page::Item;
use score::{AcceptedFile, item_count, read_item};

// There are 16 parts.
pub const PARTS: usize = 16;

// How many actions an item is itself.
// Its kind is a number, as page's `Item` holds it.
fn own(i: Item) -> usize
    ensures { (result ≡ own_of i) × (result ≤ 1) }
{
    if i.kind == 0 {
        return 1;
    }
    0
}

// Bytes and no AcceptedFile, since it is public, and its clause stays as callers know it.
pub fn action_count(file: &[u8]) -> usize
    requires { Accepted file.now }
    ensures { (result ≡ actions_in (decode file.now).items) × (result ≤ most_actions) }
{
    let mut n = 0;
    for p in 0..item_count(file) {
        n += own(read_item(file, p));
    }
    n
}

// Marks the part of each item, in one pass.
pub fn mark_parts(file: AcceptedFile<'_>, marks: &mut [u8; PARTS])
    ensures { marks.new ≡ marked marks.old (decode file.entry.bytes.now).items }
{
    for p in 0..item_count(file.bytes) {
        let i = read_item(file.bytes, p);
        marks[i.part] = 1;
    }
}
