// How many values a curve has, found without making them: a span of so many steps has so many, and the last point closes the curve. A curve has less than 2^16
// points and a span less than 2^32 steps, so nothing wraps.
// The bytes are read in place, so a file and the byte at which something stands go together.
ghost use Rattle.std.specs.Prelude.{◌≡◌, ◌+◌, ◌/◌, ◌≤◌, ◌<◌, length};
ghost use Rattle.values.specs.Curves.{curve_values};
ghost use Rattle.contents.specs.Limits.{most_actions};
ghost use Rattle.extended.specs.Layout.{point_size};
ghost use Rattle.extended.specs.Points.{point_at, points_from, values_of};
ghost use Rattle.extended.specs.Inner.{word_range, SmallFolded};
ghost use Rattle.tables.specs.Inner.{most_count, times_as, points_left, Drawn, Reached};

use crate::reading::{points_at, span_at};
use extended::layout::POINT_SIZE;
use extended::{CURVE, Extent, Folded};

// The steps from the point at `at` to the next one.
fn count_span(file: &[u8], at: usize, step: usize) -> usize
    requires { (at + point_size ≤ length file.now) × (1 ≤ step) }
    ensures { (result ≡ (point_at file.now at).span / step) × (result < word_range) }
{
    span_at(file, at) / step
}

// The values of a curve with so many points from the byte `from` on.
fn count_curve(file: &[u8], from: usize, points: usize, step: usize) -> usize
    requires { Drawn (length file.now) from points step }
    ensures { (result ≡ length (curve_values step (points_from file.now from points))) × (result ≤ most_count) }
{
    let mut at = from;
    let mut n = 1;
    for _ in 1..points {
        n += count_span(file, at, step);
        at += POINT_SIZE;
    }
    n
}

// An item's values: only a curve has any.
pub fn count_values(file: &[u8], c: Extent, used: usize, i: Folded) -> usize
    requires { Reached file.now c used i }
    ensures { (result ≡ length (values_of i (points_left file.now c used))) × (result ≤ most_count) }
{
    if i.item.kind == CURVE {
        return count_curve(file, points_at(c, used), i.times, i.each);
    }
    0
}

// An item's passes or its values, of which there are so many.
pub fn times_of(i: Folded, values: usize) -> usize
    requires { SmallFolded i × (values ≤ most_actions) }
    ensures { (result ≡ times_as i values) × (result < word_range) }
{
    if i.item.kind == CURVE {
        return values;
    }
    i.times
}
