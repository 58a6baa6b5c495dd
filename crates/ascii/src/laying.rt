// Bytes and numbers laid in lent bytes, one behind the other. Each function answers where the next begins.
// A place beside the bytes, and no writer that has both: `Laid` and `one-laid` say what stands before the place and behind it, of bytes that each caller lends to others as well.
ghost use Rattle.std.specs.Prelude.{◌≡◌, [], ◌∷◌, ◌+◌, ◌%◌, ◌≤◌, ◌<◌, length, replicate};
ghost use Rattle.ascii.specs.Words.{space, zero_digit};
ghost use Rattle.ascii.specs.Decimals.{most_places, digits_of, decimal};
ghost use Rattle.ascii.specs.Laying.{Laid};

use crate::SPACE;

// Puts `src` behind the first `at` bytes of `out`, which stay.
pub fn put_bytes(out: &mut [u8], at: usize, src: &[u8]) -> usize
    requires { at + length src.now ≤ length out.old }
    ensures { Laid out.old at src.now out.new result }
{
    let end = at + src.len();
    out[at..end].copy_from_slice(src);
    end
}

// One byte more.
pub fn put_byte(out: &mut [u8], at: usize, b: u8) -> usize
    requires { at + 1 ≤ length out.old }
    ensures { Laid out.old at (b ∷ []) out.new result }
{
    out[at] = b;
    at + 1
}

// So many spaces.
pub fn put_spaces(out: &mut [u8], at: usize, count: usize) -> usize
    requires { at + count ≤ length out.old }
    ensures { Laid out.old at (replicate count space) out.new result }
{
    let end = at + count;
    out[at..end].fill(SPACE);
    end
}

// The number's last digit.
fn digit(n: u64) -> u8
    ensures { result ≡ zero_digit + n % 10 }
{
    b'0' + (n % 10) as u8
}

// How many digits a number of at most four has.
fn few_places(n: u64) -> usize
    requires { n < 10000 }
    ensures { (result ≡ length (digits_of 4 n)) × (result ≤ 4) }
{
    if n < 10 {
        return 1;
    }
    if n < 100 {
        return 2;
    }
    if n < 1000 {
        return 3;
    }
    4
}

// How many digits the number has: a u64 has 20 at most.
fn places(n: u64) -> usize
    ensures { (result ≡ length (decimal n)) × (result ≤ most_places) }
{
    if n < 10000 {
        return few_places(n);
    }
    if n < 100000000 {
        return 4 + few_places(n / 10000);
    }
    if n < 1000000000000 {
        return 8 + few_places(n / 100000000);
    }
    if n < 10000000000000000 {
        return 12 + few_places(n / 1000000000000);
    }
    16 + few_places(n / 10000000000000000)
}

// The number's digits, of which there are so many, from the last to the first, two at a time.
// A `while`: by `for` the places would count up, while the number loses its last two digits at each step.
fn put_places(out: &mut [u8], at: usize, places: usize, n: u64) -> usize
    requires { (places ≡ length (decimal n)) × (at + places ≤ length out.old) }
    ensures { Laid out.old at (decimal n) out.new result }
{
    let mut left = places;
    let mut rest = n;
    while 2 <= left {
        let two = rest % 100;
        let tens = digit(two / 10);
        let ones = digit(two);
        rest /= 100;
        left -= 2;
        out[at + left] = tens;
        out[at + left + 1] = ones;
    }
    if left == 1 {
        out[at] = digit(rest);
        return at + places;
    }
    at + places
}

// The number's digits, where just they have room.
pub fn put_decimal(out: &mut [u8], at: usize, n: u64) -> usize
    requires { at + length (decimal n) ≤ length out.old }
    ensures { Laid out.old at (decimal n) out.new result }
{
    put_places(out, at, places(n), n)
}

// The number's digits, where any number's have room.
pub fn put_number(out: &mut [u8], at: usize, n: u64) -> usize
    requires { at + most_places ≤ length out.old }
    ensures { Laid out.old at (decimal n) out.new result × (result ≤ at + most_places) }
{
    put_places(out, at, places(n), n)
}
