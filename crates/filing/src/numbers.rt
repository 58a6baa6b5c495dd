// Numbers in a file's bytes: "Little-endian".
ghost use Rattle.std.specs.Prelude.{◌≡◌, ◌+◌, ◌≤◌, ◌<◌, length};
ghost use Rattle.ascii.specs.Laying.{Laid};
ghost use Rattle.score.specs.Encode.{le16, le32};

use ascii::put_bytes;

// A number below 65,536 behind the first `at` bytes, which stay.
pub fn put16(out: &mut [u8], at: usize, n: usize) -> usize
    requires { (at + 2 ≤ length out.old) × (n < 65536) }
    ensures { Laid out.old at (le16 n) out.new result × (result ≡ at + 2) }
{
    put_bytes(out, at, &(n as u16).to_le_bytes())
}

// A number below 2^32.
pub fn put32(out: &mut [u8], at: usize, n: usize) -> usize
    requires { (at + 4 ≤ length out.old) × (n < 4294967296) }
    ensures { Laid out.old at (le32 n) out.new result × (result ≡ at + 4) }
{
    put_bytes(out, at, &(n as u32).to_le_bytes())
}
