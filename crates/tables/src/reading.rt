// What is read of an extended score that can be unfolded: its items by number, and the points of its curves.
// The bytes are read in place, so a file and the byte at which something stands go together.
ghost use Rattle.std.specs.Prelude.{◌≡◌, ◌+◌, ◌*◌, ◌≤◌, ◌<◌, length};
ghost use Rattle.values.specs.Integers.{whole_range};
ghost use Rattle.values.specs.Inner.{value_of};
ghost use Rattle.extended.specs.Layout.{folded_size, point_size, items_start, points_start};
ghost use Rattle.extended.specs.Folds.{folded_at};
ghost use Rattle.extended.specs.Points.{point_at};
ghost use Rattle.extended.specs.Inner.{word_range, SmallFolded};
ghost use Rattle.tables.specs.Inner.{ItemIn, PointIn};

use contents::bytes::read32;
use extended::layout::{FOLDED_SIZE, POINT_SIZE, items_start, points_start};
use extended::{Extent, Folded, folded_at};
use values::raised;

// The item number k.
pub fn item_of(file: &[u8], c: Extent, k: usize) -> Folded
    requires { ItemIn (length file.now) c k }
    ensures { (result ≡ folded_at file.now (items_start c + folded_size * k)) × SmallFolded result }
{
    folded_at(file, items_start(c) + FOLDED_SIZE * k)
}

// Where the points begin that the first `used` leave.
pub fn points_at(c: Extent, used: usize) -> usize
    requires { PointIn c used }
    ensures { result ≡ points_start c + point_size * used }
{
    points_start(c) + POINT_SIZE * used
}

// A point's value, raised.
pub fn value_at(file: &[u8], at: usize) -> u64
    requires { at + point_size ≤ length file.now }
    ensures { (value_of result ≡ (point_at file.now at).value) × (result < whole_range) }
{
    raised(read32(file, at) as u64)
}

// The grains from a point to the next of its curve.
pub fn span_at(file: &[u8], at: usize) -> usize
    requires { at + point_size ≤ length file.now }
    ensures { (result ≡ (point_at file.now at).span) × (result < word_range) }
{
    read32(file, at + 4)
}
