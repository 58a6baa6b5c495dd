// The last field of an item that stands in lent bytes.
ghost use Rattle.std.specs.Prelude.{◌+◌, ◌*◌, ◌≤◌, ◌<◌, length};
ghost use Rattle.contents.specs.Limits.{item_size};
ghost use Rattle.filing.specs.Lasts.{Replaced};

use crate::numbers::put16;
use contents::bytes::read16;
use contents::limits::ITEM_SIZE;

const LAST_AT: usize = 10;

// Puts `v` in the place of the last field of item `g`, and answers what stood there.
pub fn set_last(items: &mut [u8], g: usize, v: usize) -> usize
    requires { (item_size * g + item_size ≤ length items.old) × (v < 65536) }
    ensures { Replaced items.old g v items.new result }
{
    let place = ITEM_SIZE * g + LAST_AT;
    let before = read16(items, place);
    put16(items, place, v);
    before
}
