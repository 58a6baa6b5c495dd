// "A number has 1 to 10 digits".
ghost use Rattle.std.specs.Prelude.{◌≡◌};
ghost use Rattle.ascii.specs.Numbers.{is_digit, number_of};

const MOST_DIGITS: usize = 10;

// The bytes of 0 to 9.
pub fn is_digit(b: u8) -> bool
    ensures { result ≡ is_digit b }
{
    matches!(b, b'0'..=b'9')
}

// The number that these bytes are, all of them. Ten digits never wrap a u64.
pub fn read_number(bytes: &[u8]) -> Option<u64>
    ensures { result ≡ number_of bytes.now }
{
    if bytes.is_empty() || MOST_DIGITS < bytes.len() {
        return None;
    }
    let mut sum = 0;
    for &b in bytes {
        if !is_digit(b) {
            return None;
        }
        sum = 10 * sum + u64::from(b - b'0');
    }
    Some(sum)
}
