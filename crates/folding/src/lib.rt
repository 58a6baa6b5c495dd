// Whether an extended score can be unfolded, and where the first fault is: number 17. Nothing here recurses, whatever holds what, so that a million nested
// groups get their reply.
#![tactic(auto)]

ghost use Rattle.std.specs.Prelude.{◌≡◌};
ghost use Rattle.extended.specs.Right.{extended_right};
ghost use Rattle.folding.specs.Answers.{folding_of};

use extended::extent_of;
use extended::layout::{FOLDED_SIZE, items_start};
use nesting::first_overrun;
use offsets::contents_right;
use own::first_wrong;

mod nesting;
mod offsets;
mod own;
mod spans;

// Whether it can be unfolded, or the place of what can't: 0 for the contents, else the item's first byte. The first fault from front to back: an item's own, or
// that it ends past what holds it; last of all, points left over.
pub fn check_extended(file: &[u8]) -> Result<(), usize>
    ensures { result ≡ folding_of (extended_right file.now) }
{
    if !contents_right(file) {
        return Err(0);
    }
    let c = extent_of(file);
    let w = first_wrong(file, c);
    let k = first_overrun(file, c, w.number);
    if k < c.items {
        return Err(items_start(c) + FOLDED_SIZE * k);
    }
    if w.left != 0 {
        return Err(0);
    }
    Ok(())
}
