// Numbers in a line for people.
// A place beside the bytes, as in ascii's laying, and each asks for room by a clause: a type around the lent bytes would be built at each call, and taken apart again in it.
ghost use Rattle.std.specs.Prelude.{◌++◌, ◌+◌, ◌≤◌, length};
ghost use Rattle.ascii.specs.Decimals.{most_places, decimal};
ghost use Rattle.ascii.specs.Laying.{Laid};

use ascii::{put_bytes, put_number};

// The number's digits.
pub fn put_figure(out: &mut [u8], at: usize, n: usize) -> usize
    requires { at + most_places ≤ length out.old }
    ensures { Laid out.old at (decimal n) out.new result × (result ≤ at + most_places) }
{
    put_number(out, at, n as u64)
}

// A word, and the number behind it.
pub fn put_counted(out: &mut [u8], at: usize, word: &[u8], n: usize) -> usize
    requires { at + length word.now + most_places ≤ length out.old }
    ensures { Laid out.old at (word.now ++ decimal n) out.new result × (result ≤ at + length word.now + most_places) }
{
    let at = put_bytes(out, at, word);
    put_figure(out, at, n)
}
