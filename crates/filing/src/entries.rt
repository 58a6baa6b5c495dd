// The entry of a message: where its label starts in the text, and its length.
ghost use Rattle.std.specs.Prelude.{◌≡◌, ◌+◌, ◌≤◌, ◌<◌, length};
ghost use Rattle.ascii.specs.Laying.{Laid};
ghost use Rattle.contents.specs.Limits.{message_size};
ghost use Rattle.filing.specs.Pieces.{entry_of};

use crate::numbers::put16;

pub fn put_entry(out: &mut [u8], at: usize, from: usize, size: usize) -> usize
    requires { (at + message_size ≤ length out.old) × (from < 65536) × (size < 65536) }
    ensures { Laid out.old at (entry_of from size) out.new result × (result ≡ at + message_size) }
{
    let next = put16(out, at, from);
    put16(out, next, size)
}
