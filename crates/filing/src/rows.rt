// An item of the page, in its 12 bytes.
ghost use Rattle.std.specs.Prelude.{◌≡◌, ◌+◌, ◌≤◌, [], ◌∷◌, length};
ghost use Rattle.ascii.specs.Laying.{Laid};
ghost use Rattle.contents.specs.Limits.{item_size};
ghost use Rattle.score.specs.Encode.{item_bytes};
ghost use Rattle.filing.specs.Pieces.{Fitting};

use crate::numbers::{put16, put32};
use ascii::put_bytes;
use page::Item;

// The item behind the first `at` bytes, which stay.
pub fn put_item(out: &mut [u8], at: usize, i: Item) -> usize
    requires { (at + item_size ≤ length out.old) × Fitting i }
    ensures { Laid out.old at (item_bytes (i ∷ [])) out.new result × (result ≡ at + item_size) }
{
    let words = [i.kind as u8, i.synchrony as u8, i.error as u8, i.part as u8];
    let at = put_bytes(out, at, &words);
    let at = put32(out, at, i.delay.0 as usize);
    let at = put16(out, at, i.event);
    put16(out, at, i.last)
}
