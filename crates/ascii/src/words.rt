// Words among bytes: comparing one, and finding where it ends.
ghost use Rattle.std.specs.Prelude.{◌≡◌, ◌≤◌, length};
ghost use Rattle.ascii.specs.Words.{begins, same, bytes_before};

// Whether the bytes begin with this word.
pub fn begins(word: &[u8], bytes: &[u8]) -> bool
    ensures { result ≡ begins word.now bytes.now }
{
    bytes.starts_with(word)
}

// Whether the bytes are this word.
pub fn same(word: &[u8], bytes: &[u8]) -> bool
    ensures { result ≡ same word.now bytes.now }
{
    word == bytes
}

// How many bytes stand before the first that is `stop`: all of them where none is.
pub fn bytes_before(stop: u8, bytes: &[u8]) -> usize
    ensures { (result ≡ bytes_before stop bytes.now) × (result ≤ length bytes.now) }
{
    bytes.iter().position(|&b| b == stop).unwrap_or(bytes.len())
}
