// What an item says by itself, and the first one that says what can't be.
ghost use Rattle.std.specs.Prelude.{◌≡◌, ◌+◌, ◌*◌, ◌≤◌, length};
ghost use Rattle.extended.specs.Layout.{point_size};
ghost use Rattle.extended.specs.Points.{points_from};
ghost use Rattle.extended.specs.Right.{loop_right, curve_right, plain_right, own_right};
ghost use Rattle.folding.specs.Inner.{Tabled, FirstWrong};

use crate::spans::spans_right;
use contents::limits::LONGEST;
use extended::layout::{FOLDED_SIZE, POINT_SIZE, items_start, points_start};
use extended::{CURVE, Extent, Folded, folded_at, points_of};

const MOST_PASSES: usize = 256;

// An item's number, and how many points those before it leave.
#[derive(Clone, Copy)]
pub struct Reached {
    pub number: usize,
    pub left: usize,
}

fn loop_right(i: Folded) -> bool
    ensures { result ≡ loop_right i }
{
    if LONGEST < i.each {
        return false;
    }
    if i.times < 1 {
        return false;
    }
    i.times <= MOST_PASSES
}

// `left` points are left, from the byte `at` on.
fn curve_right(file: &[u8], i: Folded, at: usize, left: usize) -> bool
    requires { at + point_size * left ≤ length file.now }
    ensures { result ≡ curve_right i (points_from file.now at left) }
{
    if i.each < 1 {
        return false;
    }
    if LONGEST < i.each {
        return false;
    }
    if i.times < 1 {
        return false;
    }
    if left < i.times {
        return false;
    }
    if i.item.last != 0 {
        return false;
    }
    spans_right(file, i.each, at, i.times)
}

fn plain_right(i: Folded) -> bool
    ensures { result ≡ plain_right i }
{
    if 1 < i.item.kind {
        return false;
    }
    if i.each != 0 {
        return false;
    }
    i.times == 0
}

fn own_right(file: &[u8], i: Folded, at: usize, left: usize) -> bool
    requires { at + point_size * left ≤ length file.now }
    ensures { result ≡ own_right i (points_from file.now at left) }
{
    if i.pad != 0 {
        return false;
    }
    if i.item.kind == 2 {
        return loop_right(i);
    }
    if i.item.kind == CURVE {
        return curve_right(file, i, at, left);
    }
    plain_right(i)
}

// The first item that is wrong by itself, or the number after the last.
pub fn first_wrong(file: &[u8], c: Extent) -> Reached
    requires { Tabled file.now c }
    ensures { FirstWrong file.now c result.number result.left }
{
    let mut at = items_start(c);
    let mut p = points_start(c);
    let mut left = c.points;
    for number in 0..c.items {
        let i = folded_at(file, at);
        if !own_right(file, i, p, left) {
            return Reached { number, left };
        }
        let taken = points_of(i);
        p += POINT_SIZE * taken;
        left -= taken;
        at += FOLDED_SIZE;
    }
    Reached {
        number: c.items,
        left,
    }
}
