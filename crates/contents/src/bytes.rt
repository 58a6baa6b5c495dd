// Numbers in a file's bytes: "Little-endian".
ghost use Rattle.std.specs.Prelude.{◌≡◌, ◌+◌, ◌≤◌, ◌<◌, length};
ghost use Rattle.contents.specs.Bytes.{byte_at, u16_at, u32_at};

pub fn byte(file: &[u8], at: usize) -> usize
    requires { at < length file.now }
    ensures { (result ≡ byte_at file.now at) × (result < 256) }
{
    usize::from(file[at])
}

pub fn read16(file: &[u8], at: usize) -> usize
    requires { at + 2 ≤ length file.now }
    ensures { (result ≡ u16_at file.now at) × (result < 65536) }
{
    usize::from(u16::from_le_bytes([file[at], file[at + 1]]))
}

pub fn read32(file: &[u8], at: usize) -> usize
    requires { at + 4 ≤ length file.now }
    ensures { (result ≡ u32_at file.now at) × (result < 4294967296) }
{
    u32::from_le_bytes([file[at], file[at + 1], file[at + 2], file[at + 3]]) as usize
}
