// The values of all curves, raised, one behind the other.
// The rooms are lent and nothing allocates, so how many words are filled, and the byte that is read, stand beside their slices.
ghost use Rattle.std.specs.Prelude.{[], ◌∷◌, ◌+◌, ◌/◌, ◌≤◌, ◌<◌, length};
ghost use Rattle.contents.specs.Limits.{most_actions};
ghost use Rattle.values.specs.Integers.{whole_range};
ghost use Rattle.values.specs.Curves.{span_values, curve_values};
ghost use Rattle.values.specs.Inner.{value_of};
ghost use Rattle.extended.specs.Points.{points_from, values_of};
ghost use Rattle.extended.specs.Inner.{Foldable};
ghost use Rattle.tables.specs.Tables.{values_in, Valued};
ghost use Rattle.tables.specs.Inner.{points_left, Drawn, Reached, Spanned, Addable, Added};

use crate::reading::{item_of, points_at, span_at, value_at};
use extended::layout::POINT_SIZE;
use extended::{CURVE, Extent, Folded, points_of};
use values::curve_value;

// The values from one point, v, to before the next, w.
fn fill_span(values: &mut [u64], n: usize, v: u64, w: u64, step: u64, span: u64) -> usize
    requires { Spanned v w step span × Addable values.old n (span / step) }
    ensures { Added values.old n (span_values (value_of v) (value_of w) step span) values.new result }
{
    let count = (span / step) as usize;
    for j in 0..count {
        values[n + j] = curve_value(v, w, step, span, j as u64);
    }
    n + count
}

// The value of a curve's last point, which closes it.
fn fill_last(values: &mut [u64], n: usize, v: u64) -> usize
    requires { (v < whole_range) × Addable values.old n 1 }
    ensures { Added values.old n (value_of v ∷ []) values.new result }
{
    values[n] = v;
    n + 1
}

// The values of a curve with so many points from the byte `from` on.
fn fill_curve(
    file: &[u8],
    from: usize,
    points: usize,
    step: usize,
    values: &mut [u64],
    n: usize,
) -> usize
    requires { Drawn (length file.now) from points step × Addable values.old n (length (curve_values step (points_from file.now from points))) }
    ensures { Added values.old n (curve_values step (points_from file.now from points)) values.new result }
{
    let mut at = from;
    let mut next = n;
    for _ in 1..points {
        let v = value_at(file, at);
        let w = value_at(file, at + POINT_SIZE);
        let span = span_at(file, at);
        next = fill_span(values, next, v, w, step as u64, span as u64);
        at += POINT_SIZE;
    }
    let v = value_at(file, at);
    fill_last(values, next, v)
}

// The values of an item, of which only a curve has any.
fn fill_item(file: &[u8], c: Extent, used: usize, i: Folded, values: &mut [u64], n: usize) -> usize
    requires { Reached file.now c used i × Addable values.old n (length (values_of i (points_left file.now c used))) }
    ensures { Added values.old n (values_of i (points_left file.now c used)) values.new result }
{
    if i.item.kind == CURVE {
        return fill_curve(file, points_at(c, used), i.times, i.each, values, n);
    }
    n
}

// The values of all curves at the front of `values`, and how many there are.
pub fn fill_values(file: &[u8], c: Extent, values: &mut [u64]) -> usize
    requires { Foldable file.now c × (length (values_in file.now c) ≤ most_actions) × (most_actions ≤ length values.old) }
    ensures { Valued file.now c values.new result }
{
    let mut used = 0;
    let mut n = 0;
    for k in 0..c.items {
        let i = item_of(file, c, k);
        n = fill_item(file, c, used, i, values, n);
        used += points_of(i);
    }
    n
}
