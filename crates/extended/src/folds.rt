// "Item: 20 bytes [..]: the 12 of document 01, then `each` (u32) and `times` (u16), then two bytes of 0"
// The bytes are read in place, so a file and the byte at which something stands go together.
ghost use Rattle.std.specs.Prelude.{◌≡◌, ◌+◌, ◌≤◌, ◌<◌, length};
ghost use Rattle.contents.specs.Bytes.{u32_at};
ghost use Rattle.units.specs.declared.Grains.{Grains};
ghost use Rattle.extended.specs.Layout.{folded_size};
ghost use Rattle.extended.specs.Folds.{folded_at};
ghost use Rattle.extended.specs.Inner.{word_range, SmallFolded, points_of};

use crate::{CURVE, Folded};
use contents::bytes::{byte, read16, read32};
use page::Item;
use units::Grains;

// The delay in the four bytes at `at`.
fn delay_at(file: &[u8], at: usize) -> Grains
    requires { at + 4 ≤ length file.now }
    ensures { (result.0 ≡ u32_at file.now at) × (result.0 < word_range) }
{
    Grains(read32(file, at) as u64)
}

// The item at the byte `at`.
pub fn folded_at(file: &[u8], at: usize) -> Folded
    requires { at + folded_size ≤ length file.now }
    ensures { (result ≡ folded_at file.now at) × SmallFolded result }
{
    let kind = byte(file, at);
    let synchrony = byte(file, at + 1);
    let error = byte(file, at + 2);
    let part = byte(file, at + 3);
    let delay = delay_at(file, at + 4);
    let event = read16(file, at + 8);
    let last = read16(file, at + 10);
    let each = read32(file, at + 12);
    let times = read16(file, at + 16);
    let pad = read16(file, at + 18);
    let item = Item {
        kind,
        synchrony,
        error,
        part,
        delay,
        event,
        last,
    };
    Folded {
        item,
        each,
        times,
        pad,
    }
}

// How many points an item takes: only a curve has any.
pub fn points_of(i: Folded) -> usize
    ensures { result ≡ points_of i }
{
    if i.item.kind == CURVE {
        return i.times;
    }
    0
}
