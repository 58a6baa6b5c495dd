// "17 at 0: under 40 bytes; an offset or the length that isn't as above"
ghost use Rattle.std.specs.Prelude.{◌≡◌, ◌≤◌, length};
ghost use Rattle.extended.specs.Layout.{extended_contents, contents_right};
ghost use Rattle.extended.specs.Inner.{SmallExtent};
ghost use Rattle.folding.specs.Inner.{tables_right};

use contents::bytes::read32;
use extended::layout::{
    EXTENDED_CONTENTS, items_start, messages_start, points_start, text_start, whole_size,
};
use extended::{Extent, extent_of};

// The offsets and the length, with these counts.
fn tables_right(file: &[u8], c: Extent) -> bool
    requires { (extended_contents ≤ length file.now) × SmallExtent c }
    ensures { result ≡ tables_right file.now c }
{
    if read32(file, 0) != EXTENDED_CONTENTS {
        return false;
    }
    if read32(file, 8) != items_start(c) {
        return false;
    }
    if read32(file, 16) != messages_start(c) {
        return false;
    }
    if read32(file, 24) != text_start(c) {
        return false;
    }
    if read32(file, 32) != points_start(c) {
        return false;
    }
    file.len() == whole_size(c)
}

pub fn contents_right(file: &[u8]) -> bool
    ensures { result ≡ contents_right file.now }
{
    if file.len() < EXTENDED_CONTENTS {
        return false;
    }
    let c = extent_of(file);
    tables_right(file, c)
}
